// The causes of refusal and checks 1 to 8 of document 01.
#![tactic(auto)]

ghost use Rattle.std.specs.Prelude.{◌≡◌, ℕ, Bool, Err, MatchResult, IfOk, ◌<◌, ◌≤◌, length, get_or, set, true, ◌||◌, eqb, ltb, leb};
ghost use Rattle.folds.specs.Fold.{when, count_to, first_to, if_below};
ghost use Rattle.graph.specs.Lent.{graph_in};
ghost use Rattle.cycle_test.specs.Thin.{Marked};
ghost use Rattle.validity.specs.Cause.{number_of, Passed, Refused};
ghost use Rattle.validity.specs.Faults.{Tells};
ghost use Rattle.validity.specs.Repeat.{Found, tried_of};
ghost use Rattle.validity.specs.Words.{WordsRoom, Trying, Tried};
ghost use Rattle.validity.specs.Drawn.{checked_with, check_of};
ghost use Rattle.validity.specs.declared.Cause.TheVariants.{Repeat};
ghost use Rattle.validity.specs.Promises.{Fits, OrderLeft};
ghost use Rattle.validity.specs.Check.{refuse_if, refuse_at, bad_vertices, bad_parts, bad_edges, bad_cost, bad_ends, repeats, repeats_from, lists_from, checked};

use cycle_test::MarkedEdges;
use graph::{EdgeLists, LinkTable, Lists, Problem};

// By document 01's numbers.
#[derive(Clone, Copy)]
pub enum Cause {
    Vertices = 1,
    Parts = 2,
    Edges = 3,
    Room = 4,
    Cost = 5,
    Ends = 6,
    Repeat = 7,
    Cycle = 8,
    Uncut = 9,
    Entry = 10,
    Empty = 11,
    Over = 12,
    PartCycle = 13,
    Length = 14,
    Line = 15,
    Lines = 16,
}

// Why a call refuses, and the place that document 01's table names.
#[derive(Clone, Copy)]
pub struct Refusal {
    pub cause: Cause,
    pub place: usize,
}

// What checks 1 to 8 say, and how many edges the search for a repeated one tried.
#[derive(Clone, Copy)]
pub struct Checked {
    pub verdict: Result<(), Refusal>,
    pub tried: usize,
}

// Where the first repeated edge is, or how many edges there are, and how many the search tried.
// stays: a number for none: with an `Option` in it this is answered in memory, and the check took longer (tried: a twentieth in the mean, a tenth at some shapes).
#[derive(Clone, Copy)]
pub struct Repeated {
    pub place: usize,
    pub tried: usize,
}

// The edges of lists that passed checks 1 to 6, between n vertices.
#[derive(Clone, Copy)]
struct Fitted<'a> {
    n: usize,
    edges: EdgeLists<'a>,
    ghost fits: { Fits n edges.starts.now edges.ends.now },
}

impl Cause {
    // Document 01's number of a cause.
    pub fn number(self) -> u32
        ensures { result ≡ number_of self }
    {
        self as u32
    }

    // A refusal for this cause.
    pub fn at(self, place: usize) -> Refusal
        ensures { result ≡ record { cause = self; place = place } }
    {
        Refusal { cause: self, place }
    }

    // Refuses the whole, at place 0, where it has the fault.
    fn refuse_if(self, fault: bool) -> Result<(), Refusal>
        ensures { result ≡ refuse_if fault self Passed }
    {
        if fault { Err(self.at(0)) } else { Ok(()) }
    }

    // Refuses the place of the first fault, where there is one.
    pub fn refuse_at(self, place: Option<usize>) -> Result<(), Refusal>
        ensures { (n i : ℕ) → place ≡ if_below n i → result ≡ refuse_at self i n Passed }
    {
        match place {
            Some(place) => Err(self.at(place)),
            None => Ok(()),
        }
    }
}

impl Repeated {
    // A refusal by check 7.
    fn refuse(self) -> Checked
        ensures { (result.verdict ≡ Refused Repeat self.place) × (result.tried ≡ self.tried) }
    {
        Checked {
            verdict: Err(Cause::Repeat.at(self.place)),
            tried: self.tried,
        }
    }
}

#[tactic(auto, unfolding(crate::specs::Check::bad_vertices))]
fn bad_vertices(most: usize, n: usize) -> bool
    ensures { result ≡ bad_vertices most n }
{
    n == 0 || most < n
}

#[tactic(auto, unfolding(crate::specs::Check::bad_parts))]
fn bad_parts(k: usize, n: usize) -> bool
    ensures { result ≡ bad_parts k n }
{
    k == 0 || 16 < k || n < k
}

#[tactic(auto, unfolding(crate::specs::Check::bad_edges))]
fn bad_edges(starts: usize, ends: usize, widths: usize) -> bool
    ensures { result ≡ bad_edges starts ends widths }
{
    ends != starts || widths != starts || 1024 < starts
}

// How many of the numbers below n have a fault: one after the other without a branch, so that the loop takes many at once.
fn count_faults<F: Fn(usize) -> bool>(n: usize, fault: F) -> u16
    requires few { n ≤ 1024 }
    requires each { (j : ℕ) → j < n → F.pre fault j }
    ensures { (p : ℕ → Bool) → Tells (F.post fault) n p → result ≡ count_to n p }
{
    let mut sum: u16 = 0;
    for j in 0..n {
        sum += u16::from(fault(j));
    }
    sum
}

// The lowest number below n that has a fault: looked for only where there is one.
fn first_fault<F: Fn(usize) -> bool>(n: usize, fault: F) -> Option<usize>
    requires few { n ≤ 1024 }
    requires each { (j : ℕ) → j < n → F.pre fault j }
    ensures { (p : ℕ → Bool) → Tells (F.post fault) n p → result ≡ if_below n (first_to n p) }
{
    if count_faults(n, &fault) == 0 {
        return None;
    }
    for j in 0..n {
        if fault(j) {
            return Some(j);
        }
    }
    None
}

// The lowest vertex that check 5 refuses.
fn bad_cost(costs: &[u16], bound: u32) -> Option<usize>
    requires { length costs.now ≤ 512 }
    ensures { result ≡ if_below (length costs.now) (first_to (length costs.now) (bad_cost costs.now bound)) }
{
    let fault = |v: usize| {
        let cost = costs[v];
        cost == 0 || bound < u32::from(cost)
    };
    first_fault(costs.len(), fault)
}

// The lowest edge that check 6 refuses.
fn bad_end(lists: Lists<'_>) -> Option<usize>
    requires same { (length lists.ends.now ≡ length lists.starts.now) × (length lists.widths.now ≡ length lists.starts.now) }
    requires few { (length lists.costs.now ≤ 512) × (length lists.starts.now ≤ 1024) }
    ensures { result ≡ if_below (length lists.entry.starts.now) (first_to (length lists.entry.starts.now)
        (bad_ends (length lists.entry.costs.now) lists.entry.starts.now lists.entry.ends.now lists.entry.widths.now)) }
{
    let n = lists.costs.len() as u16;
    let fault = |j: usize| {
        let a = lists.starts[j];
        let b = lists.ends[j];
        let w = lists.widths[j];
        n <= a || n <= b || a == b || w == 0
    };
    first_fault(lists.starts.len(), fault)
}

// Tries edge j as a repeat of an earlier one: whether its bit is set already, bit ends[j] % 64 of word starts[j] * stride + ends[j] / 64.
fn try_edge(starts: &[u16], ends: &[u16], j: usize, stride: usize, seen: &mut [u64]) -> bool
    requires { Trying starts.now ends.now stride j seen.old }
    ensures value { result ≡ repeats starts.now ends.now j }
    ensures tried { Tried starts.now ends.now stride j seen.old seen.new }
{
    let b = usize::from(ends[j]);
    let w = usize::from(starts[j]) * stride + b / 64;
    let old = seen[w];
    let new = old | pool::bit(b % 64);
    seen[w] = new;
    old == new
}

// Marks what edge j leaves, where that is wanted.
// stays: a flag, here and below: of an `Option<&mut [u8; 512]>` (tried) a clause says what is left by cases in cases, where it says `wanted ≡ true → …` now.
fn note(wanted: bool, starts: &[u16], j: usize, left: &mut [u8; 512])
    requires { (j < length starts.now) × (get_or starts.now j 0 < 512) }
    ensures { wanted ≡ true → left.new ≡ set left.old (get_or starts.now j 0) 1 }
{
    if wanted {
        left[usize::from(starts[j])] = 1;
    }
}

// Tries the edges from the lowest up, counts them and, where that is wanted, marks what they leave, to the first that repeats an earlier one. It asks nothing
// of those past it.
fn first_repeat<const N: usize>(
    starts: &[u16],
    ends: &[u16],
    stride: usize,
    wanted: bool,
    left: &mut [u8; 512],
) -> Repeated
    requires words_room { WordsRoom starts.now ends.now stride N }
    requires few { N ≤ 4096 }
    ensures found { Found starts.now ends.now result.place result.tried }
    ensures marked { wanted ≡ true → Marked starts.now result.tried left.new }
{
    let mut seen = [0u64; N];
    for j in 0..starts.len() {
        note(wanted, starts, j, left);
        if try_edge(starts, ends, j, stride, &mut seen) {
            return Repeated {
                place: j,
                tried: j + 1,
            };
        }
    }
    let tried = starts.len();
    Repeated {
        place: tried,
        tried,
    }
}

// Where the first repeated edge is, and how many were tried; what these leave is marked, where that is wanted. Fewer vertices, fewer words.
// stays: an `if` for each size, as in `division_table::fill_fixed`.
fn find_repeat(lists: Fitted<'_>, wanted: bool, left: &mut [u8; 512]) -> Repeated
    ensures found { Found lists.entry.edges.starts.now lists.entry.edges.ends.now result.place result.tried }
    ensures marked { wanted ≡ true → Marked lists.entry.edges.starts.now result.tried left.new }
{
    let EdgeLists { starts, ends } = lists.edges;
    if lists.n <= 64 {
        return first_repeat::<64>(starts, ends, 1, wanted, left);
    }
    if lists.n <= 256 {
        return first_repeat::<1024>(starts, ends, 4, wanted, left);
    }
    first_repeat::<4096>(starts, ends, 8, wanted, left)
}

// Checks 1 to 6: at most `most` vertices; `room` is the caller's verdict of check 4.
fn check_lists(most: usize, problem: Problem<'_>, room: bool) -> Result<(), Refusal>
    requires { most ≤ 512 }
    ensures value { result ≡ lists_from most (graph_in problem.entry.lists) problem.entry.k problem.entry.bound room Passed }
    ensures fits { result ≡ Passed → Fits (length problem.entry.lists.costs.now) problem.entry.lists.starts.now problem.entry.lists.ends.now }
{
    let Problem { lists, k, bound } = problem;
    let n = lists.costs.len();
    let m = lists.starts.len();
    Cause::Vertices.refuse_if(bad_vertices(most, n))?;
    Cause::Parts.refuse_if(bad_parts(k, n))?;
    Cause::Edges.refuse_if(bad_edges(m, lists.ends.len(), lists.widths.len()))?;
    Cause::Room.refuse_if(!room)?;
    Cause::Cost.refuse_at(bad_cost(lists.costs, bound))?;
    Cause::Ends.refuse_at(bad_end(lists))?;
    Ok(())
}

// The edges of lists that pass checks 1 to 6.
fn fit_lists<'x>(most: usize, problem: Problem<'x>, room: bool) -> Result<Fitted<'x>, Refusal>
    requires { most ≤ 512 }
    ensures value { MatchResult result (λ f. lists_from most (graph_in problem.entry.lists) problem.entry.k problem.entry.bound room Passed ≡ Passed)
        (λ r. lists_from most (graph_in problem.entry.lists) problem.entry.k problem.entry.bound room Passed ≡ Err r) }
    ensures own { IfOk result (λ f. (f.n ≡ length problem.entry.lists.costs.now)
        × ((f.edges.starts.now ≡ problem.entry.lists.starts.now) × (f.edges.ends.now ≡ problem.entry.lists.ends.now))) }
{
    check_lists(most, problem, room)?;
    let Lists {
        costs,
        starts,
        ends,
        ..
    } = problem.lists;
    let edges = EdgeLists { starts, ends };
    let n = costs.len();
    Ok(Fitted { n, edges })
}

// Checks 7 and 8, the order left.
fn check_order(
    lists: Fitted<'_>,
    order: &mut [u16; 512],
    levels: &mut [u16; 512],
    links: &mut LinkTable,
) -> Checked
    ensures verdict_value { (result.verdict ≡ repeats_from lists.entry.n lists.entry.edges.starts.now lists.entry.edges.ends.now)
        × (result.tried ≡ tried_of lists.entry.edges.starts.now lists.entry.edges.ends.now) }
    ensures order_left { OrderLeft result.verdict lists.entry.n lists.entry.edges.starts.now lists.entry.edges.ends.now order.old order.new levels.new links.new.head links.new.next }
{
    let mut left = [0u8; 512];
    let found = find_repeat(lists, false, &mut left);
    if found.place < lists.edges.starts.len() {
        return found.refuse();
    }
    let v = ordering::lowest_on_cycle(lists.edges, lists.n, order, levels, links);
    Checked {
        verdict: Cause::Cycle.refuse_at(v),
        tried: found.tried,
    }
}

// Checks 7 and 8. Where all edges go up in number, they form no cycle, and nothing need be marked.
fn check_edges(lists: Fitted<'_>) -> Checked
    ensures { (result.verdict ≡ repeats_from lists.entry.n lists.entry.edges.starts.now lists.entry.edges.ends.now)
        × (result.tried ≡ tried_of lists.entry.edges.starts.now lists.entry.edges.ends.now) }
{
    let rises = cycle_test::rises(lists.edges);
    let mut left = [0u8; 512];
    let found = find_repeat(lists, !rises, &mut left);
    if found.place < lists.edges.starts.len() {
        return found.refuse();
    }
    if rises {
        return Checked {
            verdict: Ok(()),
            tried: found.tried,
        };
    }
    let edges = lists.edges;
    let marked = MarkedEdges { edges, left: &left };
    let v = cycle_test::find_cycle(marked, lists.n);
    Checked {
        verdict: Cause::Cycle.refuse_at(v),
        tried: found.tried,
    }
}

// Checks 1 to 8. Where they pass, the topological order of the vertices is left in the front of `order`, their levels in `levels`,
// and the links of the edges from each in `links`.
pub fn check(
    most: usize,
    problem: Problem<'_>,
    room: bool,
    order: &mut [u16; 512],
    levels: &mut [u16; 512],
    links: &mut LinkTable,
) -> Checked
    requires { most ≤ 512 }
    ensures value { result ≡ checked_with (checked most (graph_in problem.entry.lists) problem.entry.k problem.entry.bound room) (length problem.entry.lists.starts.now) }
    ensures order_left { OrderLeft result.verdict (length problem.entry.lists.costs.now) problem.entry.lists.starts.now problem.entry.lists.ends.now order.old order.new levels.new links.new.head links.new.next }
{
    match fit_lists(most, problem, room) {
        Ok(lists) => check_order(lists, order, levels, links),
        Err(refusal) => Checked {
            verdict: Err(refusal),
            tried: 0,
        },
    }
}

// Checks 1 to 8 for callers that want nothing of the order.
// stays: `check` but for the call: one of both would take a closure that promises an order or none, with more clauses than these two.
pub fn check_bare(most: usize, problem: Problem<'_>, room: bool) -> Checked
    requires { most ≤ 512 }
    ensures { result ≡ checked_with (checked most (graph_in problem.entry.lists) problem.entry.k problem.entry.bound room) (length problem.entry.lists.starts.now) }
{
    match fit_lists(most, problem, room) {
        Ok(lists) => check_edges(lists),
        Err(refusal) => Checked {
            verdict: Err(refusal),
            tried: 0,
        },
    }
}

// Document 02, b: the check of a kit that is being drawn. Nothing is lent to write to, so that there is no check 4.
pub fn check_kit(problem: Problem<'_>) -> Checked
    ensures { result ≡ check_of (graph_in problem.entry.lists) problem.entry.k problem.entry.bound }
{
    check_bare(512, problem, true)
}
