// The table of the suffix recurrence: least cuts, at y * 17 + j for position y and j starts after it.
// stays: one list: its length is a const parameter in `initial`, and with rows of 17 each definition (`Table`, `Relaxed`, ..) would have a list of lists.
#![tactic(auto)]

ghost use Rattle.std.specs.Prelude.{◌≡◌, ◌+◌, ◌-◌, ◌*◌, ◌<◌, ◌≤◌, length, ltb, position};
ghost use Rattle.folds.specs.Fold.{most_cost, most_width};
ghost use Rattle.division_table.specs.Promises.{span, within, LowCuts, Relaxed, Topped, Table, InInterval};
ghost use Rattle.division_table.specs.Weighed.{EndOf, PassedOver, LanesOf, FilledOf, ColumnOf};
ghost use Rattle.division_table.specs.Fewest.{Before, After, Turned};

mod weights;

pub use weights::Weights;

// A cut as a number: none is this one, above the others.
// stays: a number above all cuts, as in the definition (`cut_in`), so that an entry has 4 bytes, where an `Option<u32>` has 8, and the lanes take the
// lower of two by one instruction for four of them.
pub const NO_CUT: u32 = 1073741824;

// The offers to the lanes to go on at the position whose cuts stand from `at` on, at w more.
fn relax<const N: usize>(cut: &[u32], at: usize, w: u32, best: &mut [u32; N])
    requires low_cuts { LowCuts cut.now }
    requires low_cuts_2 { LowCuts best.old }
    requires n_in_bounds { (at + N ≤ length cut.now) × (w ≤ most_width) }
    ensures { Relaxed at w cut.now N best.old best.new }
{
    for j in 0..N {
        best[j] = best[j].min(w + cut[at + j]);
    }
}

// The highest of the lanes.
fn highest<const N: usize>(best: &[u32; N]) -> u32
    requires { LowCuts best.now }
    ensures { Topped N best.now result }
{
    let mut m: u32 = 0;
    for b in best {
        m = m.max(*b);
    }
    m
}

// An end of an interval that starts at y: what the interval up to x costs, and what leaves it.
#[derive(Clone, Copy)]
struct End {
    x: usize,
    load: u32,
    out: u32,
}

fn first_end(w: Weights<'_>) -> End
    ensures { EndOf w.entry result × (result.x ≡ w.entry.y + 1) }
{
    End {
        x: w.y + 1,
        load: w.cost[w.y],
        out: w.away[w.y] - w.into[w.y],
    }
}

fn next_end(w: Weights<'_>, e: End) -> End
    requires { EndOf w e × (e.x < w.g) }
    ensures { EndOf w.entry result × (result.x ≡ e.x + 1) }
{
    End {
        x: e.x + 1,
        load: e.load + w.cost[e.x],
        out: e.out + w.away[e.x] - w.into[e.x],
    }
}

// Passes over the ends from `first` on whose offers are not below `most`, as far as the interval is within the bound. Four lanes take an
// offer as quickly as it is passed over.
// stays: a `while`: how many ends are passed over depends on what is found at them.
fn pass_over<const N: usize>(w: Weights<'_>, first: End, most: u32) -> End
    requires { EndOf w first }
    ensures { EndOf w.entry result × PassedOver w.entry most first.x result.x }
{
    if N <= 4 {
        return first;
    }
    let mut e = first;
    while e.x < w.g && e.load <= w.bound && e.out >= most {
        e = next_end(w, e);
    }
    e
}

// The offers of an end to the lanes from column `from` on: the highest lane afterwards, or `most`, above which none was, since lanes only sink.
fn offer<const N: usize>(cut: &[u32], e: End, from: usize, most: u32, best: &mut [u32; N]) -> u32
    requires low_cuts { LowCuts cut.now }
    requires low_cuts_2 { LowCuts best.old }
    requires n_in_bounds { (e.x * 17 + from + N ≤ length cut.now) × (e.out ≤ most_width) × (N ≤ 16) }
    requires topped { Topped N best.old most }
    ensures relaxed { Relaxed (e.x * 17 + from) e.out cut.now N best.old best.new }
    ensures topped_2 { Topped N best.new result }
{
    relax(cut, e.x * 17 + from, e.out, best);
    // the highest lane is looked up again at every 16th end
    if e.x % 16 == 0 { highest(best) } else { most }
}

// The lanes of from + 1 starts on after y: over the ends of its interval, as far as it is within the bound. Ends whose offers are at or above
// every lane change nothing.
// stays: a `while`: the next end is the one at which `pass_over` stops.
// stays: `Table` is a clause, here and below and in `division_scan`: the cuts are a slice, lent to some to write and to others to read, and a type would be one of both.
fn reach<const N: usize>(w: Weights<'_>, from: usize, cut: &[u32]) -> [u32; N]
    requires table { Table w.g cut.now }
    requires from_bound { from + N ≤ 16 }
    ensures { LanesOf w.entry from N cut.now result }
{
    let mut best = [NO_CUT; N];
    let mut most: u32 = NO_CUT;
    let mut e = first_end(w);
    while e.x < w.g && e.load <= w.bound {
        most = offer(cut, e, from, most, &mut best);
        e = pass_over::<N>(w, next_end(w, e), most);
    }
    best
}

// Stores the lanes of from + 1 starts on after y.
fn fill<const N: usize>(w: Weights<'_>, from: usize, cut: &mut [u32])
    requires table { Table w.g cut.old }
    requires from_bound { from + N ≤ 16 }
    ensures { FilledOf w.entry from N cut.old cut.new }
{
    let best: [u32; N] = reach(w, from, cut);
    let at = w.y * 17 + from + 1;
    cut[at..at + N].copy_from_slice(&best);
}

// The same for n lanes by a loop over a fixed number of them, some of which are not wanted: that is quicker.
// stays: a `match`, and an `if` for each size in other crates: a const parameter is a number in the text, so that each size is a call of its own.
fn fill_fixed(w: Weights<'_>, from: usize, n: usize, cut: &mut [u32])
    requires table { Table w.g cut.old }
    requires n_bound { n ≤ 16 - from }
    ensures { FilledOf w.entry from n cut.old cut.new }
{
    match n {
        0 => {}
        1..=4 => fill::<4>(w, from.min(12), cut),
        5..=8 => fill::<8>(w, from.min(8), cut),
        _ => fill::<16>(w, 0, cut),
    }
}

// Fills the cuts that a division with n starts can have at position y, where at least `before` intervals lie before it and `after` from it on.
// From y on all costs `rest`.
pub fn sweep(w: Weights<'_>, n: usize, before: usize, after: usize, rest: u32, cut: &mut [u32])
    requires table { Table w.g cut.old }
    requires n_bound { n ≤ 16 }
    ensures { ColumnOf w.entry rest n before after cut.old cut.new }
{
    let from = after.saturating_sub(2);
    let lanes = n.saturating_sub(before).saturating_sub(from);
    fill_fixed(w, from, lanes, cut);
    cut[w.y * 17] = if w.bound < rest { NO_CUT } else { 0 };
}

// How many intervals hold what was taken so far, each filled up to the bound, and what the last costs.
#[derive(Clone, Copy)]
struct Packed {
    count: usize,
    load: u32,
}

impl Packed {
    // Takes one position more, of cost c: into the last interval, or into one of its own.
    fn take(&mut self, c: u32, bound: u32)
        requires { (self.old.count ≤ 512) × (self.old.load + c ≤ most_cost) }
        ensures { Turned bound c self.old.load self.new.load self.old.count self.new.count }
    {
        self.load += c;
        if bound < self.load {
            self.count += 1;
            self.load = c;
        }
    }
}

// How many intervals within the bound the positions before each of g take at least: as many as filled ones.
// stays: arrays of 512, of which g count, here and below, as in `Weights`.
pub fn fewest_before(cost: &[u32; 512], bound: u32, g: usize, before: &mut [u16; 512])
    requires { (g ≤ 512) × (span cost.now 0 g ≤ most_cost) }
    ensures { Before g (within cost.now bound) before.new }
{
    let mut packed = Packed {
        count: 1,
        load: cost[0],
    };
    before[0] = 0;
    for x in 1..g {
        before[x] = packed.count as u16;
        packed.take(cost[x], bound);
    }
}

// How many those from each of g on take at least.
pub fn fewest_after(cost: &[u32; 512], bound: u32, g: usize, after: &mut [u16; 512])
    requires { (g ≤ 512) × (span cost.now 0 g ≤ most_cost) }
    ensures { After g (within cost.now bound) 0 after.new }
{
    let mut packed = Packed { count: 1, load: 0 };
    for y in (0..g).rev() {
        packed.take(cost[y], bound);
        after[y] = packed.count as u16;
    }
}

// The first of the starts that is above p.
fn start_above(starts: &[u16], p: usize) -> Option<usize>
    ensures { result ≡ position (λ x. ltb p x) starts.now }
{
    starts.iter().position(|x| p < usize::from(*x))
}

// The interval of position p, by the starts of those after the first.
pub fn interval(starts: &[u16], p: usize) -> usize
    ensures { InInterval starts.now (length starts.now) p result }
{
    start_above(starts, p).unwrap_or(starts.len())
}
