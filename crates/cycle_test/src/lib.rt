// The lowest cluster on a cycle, where no order is wanted. Most graphs have no cycle, and numbers that rise along every edge show it, whoever found them.
#![tactic(auto)]

ghost use Rattle.std.specs.Prelude.{◌≡◌, ◌+◌, ◌/◌, ◌%◌, ◌<◌, ◌≤◌, true, length, ◌==◌};
ghost use Rattle.folds.specs.Fold.{pick, if_below};
ghost use Rattle.graph.specs.Walk.{Acyclic};
ghost use Rattle.graph.specs.Graph.{Edge, Inside};
ghost use Rattle.graph.specs.Lent.{arcs_in};
ghost use Rattle.graph.specs.Links.{Named};
ghost use Rattle.topology.specs.Reach.{lowest_on_cycle};
ghost use Rattle.cycle_test.specs.Thin.{Marked, Held, Kept, Picking, Sifting, Thinned, Rest};
ghost use Rattle.cycle_test.specs.Guess.{Onward};

use graph::{EdgeLists, LinkTable};

// Edges, and marks of what they leave.
#[derive(Clone, Copy)]
pub struct MarkedEdges<'a, 'b> {
    pub edges: EdgeLists<'a>,
    pub left: &'b [u8; 512],
    ghost marked: { Marked edges.starts.now (length edges.starts.now) left.now },
}

// Edges that are left, in the front of two lists.
// stays: arrays of fixed size and a count, since there is no heap.
#[derive(Clone, Copy)]
struct Sieve {
    from: [u16; 1024],
    to: [u16; 1024],
    count: usize,
}

// A cell for each cluster, with its list of edges and what it waits for, or with its rank; and the queue of the lists to take.
// stays: how many lists the queue holds is handed on beside it: as a field (tried) it is written to memory at every edge, and checks that guess ranks took a tenth longer.
// stays: a cell is one word for both, so that an edge reads and writes one: an enum of a list with a count, or a rank, takes two.
#[derive(Clone, Copy)]
struct Ranks {
    cells: [u32; 512],
    queue: [u16; 512],
}

// Whether every edge goes up in number: then they form no cycle.
pub fn rises(edges: EdgeLists<'_>) -> bool
    ensures { result ≡ true → Acyclic (Edge (arcs_in edges.entry)) }
{
    for j in 0..edges.starts.len() {
        if edges.ends[j] <= edges.starts[j] {
            return false;
        }
    }
    true
}

// Whether every edge goes up by the ranks in the low halves of the cells of its ends, whoever gave them.
fn rises_by(cells: &[u32; 512], edges: EdgeLists<'_>) -> bool
    ensures { result ≡ true → Acyclic (Edge (arcs_in edges.entry)) }
{
    // a sum, since it needs no branch
    let mut sum: u16 = 0;
    for j in 0..edges.starts.len() {
        let a = graph::end_at(edges.starts, j);
        let b = graph::end_at(edges.ends, j);
        sum += u16::from(cells[b] % 65536 <= cells[a] % 65536);
    }
    sum == 0
}

// Marks what edges leave.
// stays: bytes: `find_cycle` is lent such marks, where any number above 0 is one, and a `bool` would ask more of its callers.
// stays: `Named` is a clause, here and below: one list is read, and `EdgeLists` has two.
fn mark(starts: &[u16], left: &mut [u8; 512])
    requires { Named starts.now }
    ensures { Marked starts.now (length starts.now) left.new }
{
    *left = [0; 512];
    for a in starts {
        left[usize::from(*a)] = 1;
    }
}

// Whether thinning would leave more than eleven in twenty of some edges, 64 at most and spread over all. It decides what is tried, not what is found.
fn is_thick(ends: &[u16], left: &[u8; 512]) -> bool
    requires { Named ends.now }
    ensures { result ≡ true → 0 < length ends.now }
{
    let mut kept: usize = 0;
    let mut tried: usize = 0;
    for j in (0..ends.len()).step_by(ends.len() / 64 + 1) {
        kept += usize::from(left[graph::end_at(ends, j)] != 0);
        tried += 1;
    }
    20 * kept > 11 * tried
}

// Writes the numbers of the edges whose end is marked to the front of `picked`, and answers how many they are: no branch, since few are marked and each would be a surprise.
// stays: the count goes beside the array: `sift` reads it in the next line, and a type of both would be built for that.
fn choose(ends: &[u16], left: &[u8; 512], picked: &mut [u16; 1024]) -> usize
    requires { Named ends.now }
    ensures { Picking left.now ends.now (length ends.now) picked.new result }
{
    let mut t: usize = 0;
    for j in 0..ends.len() {
        let b = graph::end_at(ends, j);
        picked[t] = j as u16;
        t += usize::from(left[b] != 0);
    }
    t
}

impl Sieve {
    // Puts the edge from a to b at place t, if b is marked. Answers how many edges there are then.
    fn keep(&mut self, mark: u8, a: u16, b: u16, t: usize) -> usize
        requires { t < 1024 }
        ensures { Kept mark a b self.old.from self.old.to t self.new.from self.new.to result }
    {
        if mark == 0 {
            return t;
        }
        self.from[t] = a;
        self.to[t] = b;
        t + 1
    }

    // Takes in the edges whose end is marked.
    fn sift(&mut self, edges: EdgeLists<'_>, left: &[u8; 512])
        ensures { Sifting left.now edges.entry.starts.now edges.entry.ends.now (length edges.entry.starts.now) self.new.from self.new.to self.new.count }
    {
        let mut picked = [0u16; 1024];
        let r = choose(edges.ends, left, &mut picked);
        for t in 0..r {
            let j = usize::from(picked[t]);
            self.from[t] = edges.starts[j];
            self.to[t] = edges.ends[j];
        }
        self.count = r;
    }

    // Keeps those of its edges whose end is marked.
    fn resift(&mut self, left: &[u8; 512])
        requires { Held self.old.from self.old.to self.old.count }
        ensures { Sifting left.now self.old.from self.old.to self.old.count self.new.from self.new.to self.new.count }
    {
        let mut t: usize = 0;
        for j in 0..self.count {
            let a = self.from[j];
            let b = self.to[j];
            t = self.keep(left[usize::from(b)], a, b, t);
        }
        self.count = t;
    }

    // Of its edges, those that enter a cluster which none of them leaves go: no cycle goes through it.
    fn thin(&mut self)
        requires { Held self.old.from self.old.to self.old.count }
        ensures { Thinned self.old.from self.old.to self.old.count self.new.from self.new.to self.new.count }
    {
        let mut left = [0u8; 512];
        mark(&self.from[..self.count], &mut left);
        self.resift(&left);
    }

    // Thins the edges, and then what is left again and again, as long as a quarter goes.
    fn thin_all(&mut self, marked: MarkedEdges<'_, '_>)
        ensures { Rest marked.entry.edges.starts.now marked.entry.edges.ends.now self.new.from self.new.to self.new.count }
    {
        let mut before = marked.edges.starts.len();
        self.sift(marked.edges, marked.left);
        while 4 * self.count < 3 * before {
            before = self.count;
            self.thin();
        }
    }
}

// Fills lists of the edges that leave each cluster, and counts those that enter it. A cell has the first edge of its cluster's list, times 65,536, and the count;
// an arc has the next edge of its list, times 512, and the end of its own: with two numbers in one word there are fewer words to read and write.
// stays: a list ends at the number of edges: an arc has it in one word with an end, where an `Option` has no place.
fn link(edges: EdgeLists<'_>, cells: &mut [u32; 512], arcs: &mut [u32; 1024])
    ensures { Onward (length edges.entry.starts.now) arcs.new }
{
    let m = edges.starts.len();
    *cells = [m as u32 * 65536; 512];
    for j in (0..m).rev() {
        let a = graph::end_at(edges.starts, j);
        let b = graph::end_at(edges.ends, j);
        let cell = cells[a];
        arcs[j] = cell / 65536 * 512 + b as u32;
        cells[a] = j as u32 * 65536 + cell % 65536;
        cells[b] += 1;
    }
}

// The list of edges of a cell, by its first one.
fn list_of(cell: u32) -> u16
    ensures { result ≡ cell / 65536 % 65536 }
{
    (cell / 65536 % 65536) as u16
}

// A cell that waits for fewer edges, or, where it waits for none, a rank: its place in the queue, from 1. Those that never waited stay at 0.
fn cell_or_rank(cell: u32, t: usize) -> u32
    requires { t ≤ 512 }
    ensures { result ≡ pick (cell % 65536 == 0) (t + 1) cell }
{
    if cell % 65536 == 0 {
        t as u32 + 1
    } else {
        cell
    }
}

// The end of an edge, and the next edge of its list.
fn end_of(arc: u32) -> usize
    ensures { result < 512 }
{
    (arc % 512) as usize
}

fn next_of(arc: u32) -> usize
    ensures { result ≡ arc / 512 }
{
    (arc / 512) as usize
}

// stays: a length that the type says: nothing else is promised of the ranks of a guess, and `.ci/contracts` asks for a promise.
impl Ranks {
    // Puts the list of a cell at the end of the queue of t lists, where it counts if the cell waits for nothing. Answers how many lists there are then.
    fn line_up(&mut self, cell: u32, t: usize) -> usize
        requires { t ≤ 512 }
        ensures few { result ≤ 512 }
        ensures long { length self.new.cells ≡ 512 }
    {
        if t >= 512 {
            return t;
        }
        self.queue[t] = list_of(cell);
        t + usize::from(cell % 65536 == 0)
    }

    // The lists of the clusters below g that wait for nothing. Answers how many they are.
    // stays: two lines of `line_up`, without its test for room: there is some for each cluster.
    fn line_first(&mut self, g: usize) -> usize
        requires { g ≤ 512 }
        ensures { result ≤ 512 }
    {
        let mut t: usize = 0;
        for i in 0..g {
            let cell = self.cells[i];
            self.queue[t] = list_of(cell);
            t += usize::from(cell % 65536 == 0);
        }
        t
    }

    // Takes the edges from `first` on off the counts, and puts the lists of those that then wait for nothing into the queue of t lists.
    fn release(&mut self, arcs: &[u32], first: usize, t: usize) -> usize
        requires onward { Onward (length arcs.now) arcs.now }
        requires few { t ≤ 512 }
        ensures few { result ≤ 512 }
        ensures long { length self.new.cells ≡ 512 }
    {
        let mut size = t;
        let mut j = first;
        while j < arcs.len() {
            let arc = arcs[j];
            let b = end_of(arc);
            let cell = self.cells[b].wrapping_sub(1);
            self.cells[b] = cell_or_rank(cell, size);
            size = self.line_up(cell, size);
            j = next_of(arc);
        }
        size
    }

    // Takes the lists from the queue, t at first, one after the other: a cluster gets its rank after all that it waited for.
    fn rank_all(&mut self, arcs: &[u32], t: usize)
        requires onward { Onward (length arcs.now) arcs.now }
        requires few { t ≤ 512 }
        ensures { length self.new.cells ≡ 512 }
    {
        let mut size = t;
        // stays: the queue grows while it is read, so no `for`; a `next` would need its length as a field, which is slower (see `Ranks`)
        let mut n: usize = 0;
        while n < size {
            let first = usize::from(self.queue[n]);
            n += 1;
            size = self.release(arcs, first, size);
        }
    }

    // Guesses ranks for g clusters, which `rises_by` then tries: where there is a cycle, some are left at what they wait for.
    fn guess(&mut self, edges: EdgeLists<'_>, g: usize)
        requires { g ≤ 512 }
        ensures { length self.new.cells ≡ 512 }
    {
        let mut arcs = [0u32; 1024];
        link(edges, &mut self.cells, &mut arcs);
        let t = self.line_first(g);
        self.rank_all(&arcs[..edges.starts.len()], t);
    }
}

// Whether ranks can be guessed for g clusters that rise along every edge.
fn is_ranked(edges: EdgeLists<'_>, g: usize) -> bool
    requires { g ≤ 512 }
    ensures { result ≡ true → Acyclic (Edge (arcs_in edges.entry)) }
{
    let mut ranks = Ranks {
        cells: [0; 512],
        queue: [0; 512],
    };
    ranks.guess(edges, g);
    rises_by(&ranks.cells, edges)
}

// Whether ranks can be guessed for g clusters that rise along every edge which thinning leaves. A function of its own, as `search` is, since the arrays
// would else be zeroed where nothing is thinned too.
fn is_rest_ranked(marked: MarkedEdges<'_, '_>, g: usize) -> bool
    requires { g ≤ 512 }
    ensures { result ≡ true → Acyclic (Edge (arcs_in marked.entry.edges)) }
{
    let mut sieve = Sieve {
        from: [0; 1024],
        to: [0; 1024],
        count: 0,
    };
    sieve.thin_all(marked);
    if sieve.count == 0 {
        return true;
    }
    let rest = EdgeLists {
        starts: &sieve.from[..sieve.count],
        ends: &sieve.to[..sieve.count],
    };
    is_ranked(rest, g)
}

// Whether the edges are seen to form no cycle: where thinning is likely to leave few of them they are thinned, and what is left is ranked. False says nothing.
fn is_free(marked: MarkedEdges<'_, '_>, g: usize) -> bool
    requires { g ≤ 512 }
    ensures { result ≡ true → Acyclic (Edge (arcs_in marked.entry.edges)) }
{
    if is_thick(marked.edges.ends, marked.left) {
        return is_ranked(marked.edges, g);
    }
    is_rest_ranked(marked, g)
}

// The lowest of g clusters that lies on a cycle, if any, by an order of them.
fn search(edges: EdgeLists<'_>, g: usize) -> Option<usize>
    requires inside { Inside (arcs_in edges) g }
    requires g_bound { g ≤ 512 }
    ensures { result ≡ if_below g (lowest_on_cycle (arcs_in edges.entry) g) }
{
    let mut taken = [0u16; 512];
    let mut levels = [0u16; 512];
    let mut links = LinkTable {
        head: [0; 513],
        next: [0; 1024],
    };
    ordering::lowest_on_cycle(edges, g, &mut taken, &mut levels, &mut links)
}

// The lowest of g clusters that lies on a cycle, if any: searched for only where the edges are not seen to form none.
pub fn find_cycle(marked: MarkedEdges<'_, '_>, g: usize) -> Option<usize>
    requires inside { Inside (arcs_in marked.edges) g }
    requires g_bound { g ≤ 512 }
    ensures { result ≡ if_below g (lowest_on_cycle (arcs_in marked.entry.edges) g) }
{
    if is_free(marked, g) {
        return None;
    }
    search(marked.edges, g)
}
