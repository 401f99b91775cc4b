// A pass over the clusters of a rung: each goes where an allowed candidate gains most, or evens two parts out where none gains.
#![tactic(auto)]

ghost use Rattle.std.specs.Prelude.{◌||◌, ◌≡◌, ℕ, ◌+◌, ◌<◌, ◌≤◌, ◌^◌, get_or};
ghost use Rattle.folds.specs.Fold.{turns};
ghost use Rattle.neighbours.specs.Visit.{Seated};
ghost use Rattle.neighbours.specs.Held.{Knows};
ghost use Rattle.pass.specs.Work.{gains_by, beats_of, better_of, Around, back_allowed, ahead_allowed, back_of, ends_of, EvenPart, Aims, work_of, begun, Goal, WorkDone};
ghost use Rattle.pass.specs.On.{pull_on, worked_on, VisitableOn};

mod row;

use neighbours::{Mark, Numbers, PartTable};
use part_sums::PartSums;
pub use row::Row;
use row::Visit;

// The sums, the cut, the moves of gain above 0 so far, and whether the pass at hand has moved something.
// stays: the flag goes with the rest, for speed. Tried, on kits of many passes (`evening`): as (Progress, bool) a split took up to 1.43 times as long, as an
// Option that is none where nothing moved 1.28, as a bool beside `&mut Progress` 1.11; the means are 1.20, 1.12 and 1.06.
#[derive(Clone, Copy)]
pub struct Progress {
    pub sums: PartSums,
    pub cut: u32,
    pub moves: usize,
    pub moved: bool,
}

// The part that a cluster goes to, and how much the cut falls by it.
// stays: a cluster that stays goes to its own part, as in the definition; with an Option, two answers would say that.
#[derive(Clone, Copy)]
struct Target {
    part: usize,
    gain: u32,
}

// Whether the cluster gains by part t, or neither gains nor loses and evens the two parts out.
#[tactic(auto, unfolding(crate::specs::Work::gains_by))]
fn gains(visit: &Visit<'_>, toward: &[u32; 16], t: usize) -> bool
    requires { t < 16 }
    ensures { result ≡ gains_by (λ u. get_or toward.now u 0) visit.now.sums.now visit.now.own visit.now.cost t }
{
    toward[visit.own] < toward[t]
        || (toward[t] == toward[visit.own] && visit.sums.evens(visit.own, t, visit.cost))
}

// Whether part t comes before the best so far, if it is open.
#[tactic(auto, unfolding(crate::specs::Work::beats_of))]
fn beats(toward: &[u32; 16], own: usize, t: usize, best: usize) -> bool
    requires { (t < 16) × (best < 16) }
    ensures { result ≡ beats_of (λ u. get_or toward.now u 0) own t best }
{
    best == own || toward[best] < toward[t]
}

// Part t of the candidates, where it is open and comes before the best so far, or that.
fn better(visit: &Visit<'_>, toward: &[u32; 16], t: usize, best: usize) -> usize
    requires { (t < 16) × (best < 16) }
    ensures value { result ≡ better_of (λ u. get_or toward.now u 0) visit.now.sums.now visit.now.own visit.now.cost visit.now.bound t best }
    ensures upper_bound { result < 16 }
{
    if visit.own != t
        && beats(toward, visit.own, t, best)
        && gains(visit, toward, t)
        && visit.sums.lets(visit.own, t, visit.cost, visit.bound)
    {
        t
    } else {
        best
    }
}

// The part of the highest predecessor, where the cluster goes there, or its own.
// stays: this and `ends` answer the own part, no Option: `better` takes it as the best so far, as the definition does, and with an Option clauses would
// have to say that what is found is not that part.
fn back(visit: &Visit<'_>, toward: &[u32; 16]) -> usize
    requires { visit.now.high ≤ visit.now.own + 1 }
    ensures value { result ≡ back_of (λ u. get_or toward.now u 0) visit.now.sums.now visit.now.own visit.now.cost visit.now.bound visit.now.high }
    ensures upper_bound { result < 16 }
{
    if visit.high == 0 {
        return visit.own;
    }
    better(visit, toward, visit.high - 1, visit.own)
}

// Where a cluster goes of the parts of its highest predecessor and its lowest successor: the one that gains most, the lower where both gain the
// same, or its own.
fn ends(visit: &Visit<'_>, toward: &[u32; 16]) -> usize
    requires { visit.now.high ≤ visit.now.own + 1 }
    ensures value { result ≡ ends_of (λ u. get_or toward.now u 0) visit.now.sums.now visit.now.own visit.now.cost visit.now.bound visit.now.low visit.now.high }
    ensures upper_bound { result < 16 }
{
    let best = back(visit, toward);
    if visit.sums.count <= visit.low {
        return best;
    }
    better(visit, toward, visit.low, best)
}

// Whether the part of the highest predecessor is another one and allowed.
fn back_allowed(visit: &Visit<'_>) -> bool
    ensures { result ≡ back_allowed visit.now.sums.now visit.now.own visit.now.cost visit.now.bound visit.now.high }
{
    0 < visit.high
        && visit.high <= visit.own
        && visit
            .sums
            .lets(visit.own, visit.high - 1, visit.cost, visit.bound)
}

// Whether that part, or the part of the lowest successor, is another one and allowed.
fn end_allowed(visit: &Visit<'_>) -> bool
    ensures { result ≡ (back_allowed visit.now.sums.now visit.now.own visit.now.cost visit.now.bound visit.now.high || ahead_allowed visit.now.sums.now visit.now.own visit.now.cost visit.now.bound visit.now.low) }
{
    back_allowed(visit)
        || (visit.own < visit.low
            && visit.low < visit.sums.count
            && visit
                .sums
                .lets(visit.own, visit.low, visit.cost, visit.bound))
}

// The lowest part between with which the cluster evens its own out. No width is asked: the cluster has none to these parts.
fn first_even(visit: &Visit<'_>) -> Option<usize>
    ensures { EvenPart visit.now.sums.now visit.now.own visit.now.cost visit.now.bound visit.now.low visit.now.high result }
{
    let end = visit.low.min(visit.sums.count);
    // stays: no `for`: the search in the sums is asked again from past its find, where that is not allowed
    let mut first = visit.high;
    while let Some(t) = visit.sums.first_even(visit.own, visit.cost, first, end) {
        let allowed = visit.sums.lets(visit.own, t, visit.cost, visit.bound);
        if allowed {
            return Some(t);
        }
        first = t + 1;
    }
    None
}

// Where cluster h goes, by the parts around it. Only at the two ends of the range can it gain, so that its widths are looked at where one of these is
// allowed; else it stays where it has width to its own part, and may even out where it has none.
fn decide(row: &Row<'_, '_>, table: &PartTable, h: usize, visit: &Visit<'_>) -> Target
    requires h_bound { h < 512 }
    requires around { Around (pull_on row.now table.now.parts h) visit.now.sums.now.count visit.now.own visit.now.low visit.now.high }
    ensures { Aims (pull_on row.now table.now.parts h) visit.now.sums.now visit.now.own visit.now.cost visit.now.bound visit.now.low visit.now.high result }
{
    let own = visit.own;
    let open = end_allowed(visit);
    if !open {
        if visit.low == own {
            return Target { part: own, gain: 0 };
        }
        if own + 1 == visit.high {
            return Target { part: own, gain: 0 };
        }
        let part = first_even(visit).unwrap_or(own);
        return Target { part, gain: 0 };
    }
    let mut toward = [0u32; 16];
    neighbours::pulls(&row.edges, row.widths, table, h, &mut toward);
    let t = ends(visit, &toward);
    Target {
        part: t,
        gain: toward[t] - toward[own],
    }
}

// Where the visit of cluster h takes it, by the parts around it, which are found again where a neighbour's move may have changed them.
fn goal(
    row: &Row<'_, '_>,
    h: usize,
    table: &PartTable,
    numbers: &mut Numbers,
    sums: &PartSums,
) -> Target
    requires known { Knows row.now.edges table.now.parts sums.now.count numbers.old }
    requires h_bound { (h < 512) × (sums.now.count ≤ 16) }
    requires seated { Seated row.now.edges.from.now row.now.edges.to.now table.now.parts sums.now.count h }
    ensures { Goal row.now.edges.from.now row.now.edges.to.now row.now.widths.now row.now.costs.now row.now.bound h table.now.parts sums.now numbers.new.low numbers.new.high numbers.new.marks result }
{
    let own = table.part_at(h);
    neighbours::refresh(&row.edges, table, h, sums.count, numbers);
    let visit = Visit {
        sums,
        own,
        low: usize::from(numbers.low[h]),
        high: usize::from(numbers.high[h]),
        cost: row.costs[h],
        bound: row.bound,
    };
    decide(row, table, h, &visit)
}

// Visits cluster h, and moves it where its choice is another part; a move that gains nothing is not counted. One to which no candidate is open is passed over.
fn refine_cluster(
    row: &Row<'_, '_>,
    h: usize,
    table: &mut PartTable,
    numbers: &mut Numbers,
    before: Progress,
) -> Progress
    requires known { Knows row.now.edges table.old.parts before.sums.count numbers.old }
    requires h_bound { (h < 512) × (before.sums.count ≤ 16) × (before.moves < 2 ^ 33) }
    requires visitable { VisitableOn row.now h (work_of table.old.parts before) }
    ensures work_done { WorkDone (work_of table.old.parts before) (work_of table.new.parts result) 1 (worked_on row.now h (work_of table.old.parts before)) }
    ensures known_2 { Knows row.now.edges table.new.parts before.sums.count numbers.new }
{
    if numbers.marks[h] == Mark::Closed {
        return before;
    }
    let own = table.part_at(h);
    let aim = goal(row, h, table, numbers, &before.sums);
    let t = aim.part;
    if t == own {
        return before;
    }
    table.parts[h] = t as u16;
    neighbours::rouse(
        &row.edges,
        h,
        own as u16,
        t as u16,
        &numbers.low,
        &numbers.high,
        &mut numbers.marks,
    );
    let after = before.sums.moved(own, t, row.costs[h]);
    Progress {
        sums: after,
        cut: before.cut - aim.gain,
        moves: before.moves + usize::from(0 < aim.gain),
        moved: true,
    }
}

// A pass: visits the clusters below g in number order. What each visit gains is in the cut, and no edge goes backward: the caller says so, who knows
// whose cut and table they are.
pub fn pass(
    row: &Row<'_, '_>,
    g: usize,
    table: &mut PartTable,
    numbers: &mut Numbers,
    before: Progress,
) -> Progress
    requires known { Knows row.now.edges table.old.parts before.sums.count numbers.old }
    requires g_bound { (g ≤ 512) × (before.sums.count ≤ 16) × (before.moves < 2 ^ 32) }
    requires by_index { (i : ℕ) → i < g → VisitableOn row.now i (turns i (worked_on row.now) (begun (work_of table.old.parts before))) }
    ensures work_done { WorkDone (work_of table.old.parts before) (work_of table.new.parts result) g (turns g (worked_on row.now) (begun (work_of table.old.parts before))) }
    ensures known_2 { Knows row.now.edges table.new.parts before.sums.count numbers.new }
{
    let mut p = before;
    p.moved = false;
    for h in 0..g {
        p = refine_cluster(row, h, table, numbers, p);
    }
    p
}
