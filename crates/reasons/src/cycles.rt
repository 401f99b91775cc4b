// The vertices of a cycle through one of them.
use graph::Lists;
use std::fmt;

// An edge on the way to `last`: where it ends there, or where a way there begins, its start has a way there too. Whether that is new.
fn lead(next: &mut [Option<u16>; 512], last: u16, start: u16, end: u16) -> bool {
    if start == end || !matches!(next.get(usize::from(start)), Some(None)) {
        return false;
    }
    let leads = end == last || next.get(usize::from(end)).is_some_and(Option::is_some);
    if leads && let Some(hop) = next.get_mut(usize::from(start)) {
        *hop = Some(end);
    }
    leads
}

// Whether any edge led somewhere new.
fn lead_once<F: Fn(u16) -> Option<u16>>(
    next: &mut [Option<u16>; 512],
    last: u16,
    lists: Lists<'_>,
    seen_as: &F,
) -> bool
    requires { F.IsAlwaysCallable seen_as.now }
{
    let mut led = false;
    for (start, end) in lists.starts.iter().zip(lists.ends) {
        if let (Some(from), Some(to)) = (seen_as(*start), seen_as(*end)) {
            led |= lead(next, last, from, to);
        }
    }
    led
}

// Writes a cycle through a vertex, which stands at both ends. The edges are between what `seen_as` makes of their ends; one
// from such a vertex to itself is on no cycle.
pub fn write_cycle<W: fmt::Write, F: Fn(u16) -> Option<u16>>(
    f: &mut fmt::Formatter<W>,
    through: u16,
    lists: Lists<'_>,
    seen_as: F,
) -> fmt::Result
    requires { F.IsAlwaysCallable seen_as }
{
    // The next vertex on the way to the last, for each that leads there: passes to one that finds no more, at most as many as there are vertices.
    let mut next = [None; 512];
    for _ in 0..512 {
        if !lead_once(&mut next, through, lists, &seen_as) {
            break;
        }
    }
    write_way(f, through, &next)
}

fn write_way<W: fmt::Write>(
    f: &mut fmt::Formatter<W>,
    last: u16,
    next: &[Option<u16>; 512],
) -> fmt::Result {
    let mut at = last;
    for _ in 0..512 {
        write!(f, "{at} to ")?;
        match next.get(usize::from(at)) {
            Some(Some(after)) if *after != last => at = *after,
            _ => break,
        }
    }
    write!(f, "{last}")
}
