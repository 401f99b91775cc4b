// Why a kit is refused.
use crate::cycles::write_cycle;
use graph::{Lists, Problem};
use std::fmt;
use validity::{Cause, Refusal};

// Also said of a place past a list's end, which no refusal of these lists has.
pub const WRONG_LENGTH: &str = "a list or a table has the wrong length";

// Refusals 1 to 9 of a kit.
#[derive(Clone, Copy)]
pub struct KitReason<'a> {
    pub kit: Problem<'a>,
    pub refusal: Refusal,
}

impl fmt::Display for KitReason<'_> {
    fn fmt<W: fmt::Write>(&self, f: &mut fmt::Formatter<W>) -> fmt::Result {
        let Problem { lists, k, bound } = self.kit;
        let n = lists.costs.len();
        let place = self.refusal.place;
        match self.refusal.cause {
            Cause::Vertices => write!(f, "the kit has {n} blocks, but it must have 1 to 512"),
            Cause::Parts => write!(
                f,
                "the stage count is {k}, but it must be 1 to 16 and at most the block count {n}"
            ),
            Cause::Cost => {
                let Some(cost) = lists.costs.get(place) else {
                    return f.write_str(WRONG_LENGTH);
                };
                let line = place.saturating_add(2);
                write!(
                    f,
                    "block {place} (line {line}) has cost {cost}, but a cost must be 1 to the limit {bound}"
                )
            }
            Cause::Ends => write_ends(f, lists, place),
            Cause::Repeat => write_repeat(f, lists, place),
            Cause::Cycle => {
                let Ok(through) = u16::try_from(place) else {
                    return f.write_str(WRONG_LENGTH);
                };
                f.write_str("the wires form a loop: block ")?;
                write_cycle(f, through, lists, |v| Some(v))
            }
            Cause::Uncut => write!(
                f,
                "no rung can be cut into {k} stages that all hold a block and cost at most the limit {bound}"
            ),
            _ => f.write_str(WRONG_LENGTH),
        }
    }
}

// The line of an edge in the text of a kit of n blocks.
fn line_of(n: usize, edge: usize) -> usize {
    n.saturating_add(2).saturating_add(edge)
}

fn write_ends<W: fmt::Write>(
    f: &mut fmt::Formatter<W>,
    lists: Lists<'_>,
    edge: usize,
) -> fmt::Result {
    let (Some(start), Some(end)) = (lists.starts.get(edge), lists.ends.get(edge)) else {
        return f.write_str(WRONG_LENGTH);
    };
    let n = lists.costs.len();
    let line = line_of(n, edge);
    write!(f, "wire {edge} (line {line}) from {start} to {end}")?;
    f.write_str(if usize::from(*start) >= n {
        ": its start is not a block"
    } else if usize::from(*end) >= n {
        ": its end is not a block"
    } else if start == end {
        " runs from a block to itself"
    } else {
        " has width 0"
    })
}

fn write_repeat<W: fmt::Write>(
    f: &mut fmt::Formatter<W>,
    lists: Lists<'_>,
    edge: usize,
) -> fmt::Result {
    let (Some(start), Some(end)) = (lists.starts.get(edge), lists.ends.get(edge)) else {
        return f.write_str(WRONG_LENGTH);
    };
    let n = lists.costs.len();
    let earlier = lists
        .starts
        .iter()
        .zip(lists.ends)
        .position(|(a, b)| a == start && b == end)
        .unwrap_or(edge);
    let line = line_of(n, edge);
    let first = line_of(n, earlier);
    write!(
        f,
        "wire {edge} (line {line}) has the start and end of the earlier wire {earlier} (line {first})"
    )
}
