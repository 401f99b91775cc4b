// Topological order of clusters or parts, their levels, and the lowest on a cycle.
#![tactic(auto)]

ghost use Rattle.std.specs.Prelude.{◌≡◌, true, false, None, ◌⊎◌, ℕ, ◌+◌, ◌<◌, ◌≤◌, length, get_or, eqb};
ghost use Rattle.folds.specs.Fold.{pick, if_below, sum_to, over, zeros};
ghost use Rattle.graph.specs.Walk.{Walk};
ghost use Rattle.graph.specs.Graph.{Edge, Inside};
ghost use Rattle.graph.specs.Lent.{arcs_in};
ghost use Rattle.graph.specs.Links.{Linked, leave};
ghost use Rattle.topology.specs.Order.{order_of};
ghost use Rattle.topology.specs.Level.{levels_of};
ghost use Rattle.topology.specs.Reach.{on_cycle, lowest_on_cycle};
ghost use Rattle.ordering.specs.Search.{marked, Queued, Spread, Entered, OffCycles, SetAside, Ordering};
ghost use Rattle.ordering.specs.Counts.{gone, Counted, TakenOff, Released, open_at};
ghost use Rattle.ordering.specs.Sweep.{raised_of, Raised};
ghost use Rattle.pool.specs.Pool.{Kept, put_of};

use graph::{EdgeLinks, EdgeLists, LinkTable};
use pool::NumberSet;

// Edges between the clusters below g, with their links.
// stays: `Inside` is a clause where links are not filled yet (`order`, `lowest_on_cycle`), and in `order_by`, which other crates call.
#[derive(Clone, Copy)]
struct Clusters<'a, 'b> {
    links: EdgeLinks<'a, 'b>,
    g: usize,
    ghost few: { g ≤ 512 },
    ghost inside: { Inside (arcs_in links.edges) g },
}

// How many edges from clusters that are not taken yet go into each, and which clusters below g are open: not taken, and waiting for nothing.
#[derive(Clone, Copy)]
struct Waits {
    count: [u16; 512],
    ready: NumberSet,
}

// What a search has come to: it is marked, and stands in the front of the queue.
// stays: arrays of fixed size and a count, since there is no heap.
#[derive(Clone, Copy)]
struct Reached {
    marks: [bool; 512],
    queue: [u16; 512],
    count: usize,
}

// How many edges from other clusters go into each.
fn counts(edges: EdgeLists<'_>, count: &mut [u16; 512])
    ensures { Counted (arcs_in edges.entry) (zeros 512) count.new }
{
    *count = [0; 512];
    for j in 0..edges.starts.len() {
        let a = graph::end_at(edges.starts, j);
        let b = graph::end_at(edges.ends, j);
        count[b] += u16::from(a != b);
    }
}

// Puts v in where nothing is waited for.
fn admit(c: u16, v: usize, ready: &mut NumberSet)
    requires { v < 512 }
    ensures { ready.new.words ≡ pick (eqb c 0) (put_of ready.old.words v) ready.old.words }
{
    if c == 0 {
        ready.put(v);
    }
}

// The clusters below g that wait for nothing.
fn gather(count: &[u16; 512], g: usize) -> NumberSet
    requires { g ≤ 512 }
    ensures { Kept (open_at g (zeros 512) count.now) result.words }
{
    let mut ready = NumberSet::new();
    for i in 0..g {
        admit(count[i], i, &mut ready);
    }
    ready
}

// Raises the entry of b to x where it is lower, unless b is u.
fn lift(levels: &mut [u16; 512], u: usize, b: usize, x: u16)
    requires { b < 512 }
    ensures { levels.new ≡ raised_of levels.old u b x }
{
    if b == u {
        return;
    }
    levels[b] = levels[b].max(x);
}

impl Waits {
    // Takes an edge from u to b off the counts, unless b is u, and opens b where it was the last.
    fn pass(&mut self, u: usize, b: usize, g: usize)
        requires b_bound { b < 512 }
        requires nonzero { (u ≡ b → ⊥) → 0 < get_or self.old.count b 0 }
        ensures { TakenOff u b g self.old.count self.old.ready.words self.new.count self.new.ready.words }
    {
        if u == b {
            return;
        }
        let x = self.count[b] - 1;
        self.count[b] = x;
        if b < g {
            admit(x, b, &mut self.ready);
        }
    }

    // Takes the edges of u off the counts, opens what then waits for nothing, and raises what they go to above the level of u.
    fn release(&mut self, clusters: Clusters<'_, '_>, u: usize, levels: &mut [u16; 512])
        requires u_bound { (u < 512) × (get_or levels.old u 0 < 512) }
        requires by_index { (v : ℕ) → v < 512 → sum_to (length clusters.links.edges.starts.now) (gone (arcs_in clusters.links.edges) u v) ≤ get_or self.old.count v 0 }
        ensures released { Released (arcs_in clusters.entry.links.edges) u (length clusters.entry.links.edges.starts.now) clusters.entry.g self.old.count self.old.ready.words self.new.count self.new.ready.words }
        ensures raised { Raised (arcs_in clusters.entry.links.edges) u (get_or levels.old u 0 + 1) (length clusters.entry.links.edges.starts.now) levels.old levels.new }
    {
        let links = clusters.links;
        let x = levels[u] + 1;
        let mut j = links.first(u);
        while j < links.edges.starts.len() {
            let b = graph::end_at(links.edges.ends, j);
            self.pass(u, b, clusters.g);
            lift(levels, u, b, x);
            j = links.after(j);
        }
    }
}

// Writes the clusters in topological order to the front of out, by the lists of the edges that leave each, and answers how many it took.
// Where it takes all, `levels` then has the level of each: when a cluster is taken, all edges into it have raised its own.
pub fn order_by<'a, 'b>(
    links: EdgeLinks<'a, 'b>,
    g: usize,
    out: &mut [u16],
    levels: &mut [u16; 512],
) -> usize
    requires inside { Inside (arcs_in links.edges) g }
    requires g_bound { (g ≤ 512) × (g ≤ length out.old) }
    ensures value { result ≡ length (order_of (arcs_in links.entry.edges) g) }
    ensures out_after { out.new ≡ over (order_of (arcs_in links.entry.edges) g) out.old }
    ensures levels_after { result ≡ g → levels.new ≡ over (levels_of (arcs_in links.entry.edges) g) (zeros 512) }
{
    *levels = [0; 512];
    let mut waits = Waits {
        count: [0; 512],
        ready: NumberSet::new(),
    };
    counts(links.edges, &mut waits.count);
    waits.ready = gather(&waits.count, g);
    let clusters = Clusters { links, g };
    for n in 0..g {
        let Some(u) = waits.ready.lowest() else {
            return n;
        };
        out[n] = u as u16;
        waits.ready.take(u);
        waits.release(clusters, u, levels);
    }
    g
}

// Writes the clusters in topological order to the front of out, and answers how many it took.
fn order(edges: EdgeLists<'_>, g: usize, out: &mut [u16]) -> usize
    requires inside { Inside (arcs_in edges) g }
    requires g_bound { (g ≤ 512) × (g ≤ length out.old) }
    ensures value { result ≡ length (order_of (arcs_in edges.entry) g) }
    ensures out_after { out.new ≡ over (order_of (arcs_in edges.entry) g) out.old }
{
    let mut table = LinkTable {
        head: [0; 513],
        next: [0; 1024],
    };
    let mut levels = [0u16; 512];
    graph::link_leaving(edges, &mut table);
    let links = EdgeLinks {
        edges,
        table: &table,
    };
    order_by(links, g, out, &mut levels)
}

impl Reached {
    // Marks b and puts it into the queue, unless it is u or marked already. The search began at v.
    fn enter(&mut self, edges: EdgeLists<'_>, v: usize, u: usize, b: usize)
        requires queued { Queued (arcs_in edges) v self.old.marks self.old.queue self.old.count }
        requires b_bound { b < 512 }
        requires walk { (b ≡ u → ⊥) → Walk (Edge (arcs_in edges)) v b }
        ensures { Entered (arcs_in edges.entry) v u b self.old.marks self.old.queue self.old.count self.new.marks self.new.queue self.new.count }
    {
        if b == u {
            return;
        }
        if self.marks[b] {
            return;
        }
        self.marks[b] = true;
        self.queue[self.count] = b as u16;
        self.count += 1;
    }

    // Enters what the edges from u go to.
    fn spread(&mut self, links: EdgeLinks<'_, '_>, v: usize, u: usize)
        requires queued { Queued (arcs_in links.edges) v self.old.marks self.old.queue self.old.count }
        requires u_bound { (u < 512) × ((u ≡ v) ⊎ (marked self.old.marks u ≡ true)) }
        ensures { Spread (arcs_in links.entry.edges) v u (length links.entry.edges.starts.now) self.old.marks self.old.queue self.old.count self.new.marks self.new.queue self.new.count }
    {
        let mut j = links.first(u);
        while j < links.edges.starts.len() {
            let b = graph::end_at(links.edges.ends, j);
            self.enter(links.edges, v, u, b);
            j = links.after(j);
        }
    }
}

// Whether a walk from v comes back to it.
fn returns_to(clusters: Clusters<'_, '_>, v: usize) -> bool
    requires { v < 512 }
    ensures { result ≡ on_cycle (arcs_in clusters.entry.links.edges) clusters.entry.g v }
{
    let mut reached = Reached {
        marks: [false; 512],
        queue: [0; 512],
        count: 0,
    };
    reached.spread(clusters.links, v, v);
    // stays: the queue grows while it is read, so no `for`; how far it is read would be a field that every clause on the search names.
    let mut i: usize = 0;
    while i < reached.count {
        let u = usize::from(reached.queue[i]);
        reached.spread(clusters.links, v, u);
        i += 1;
    }
    reached.marks[v]
}

// The lower of `low` and a, if an edge from a goes to b, another of the same class; else `low`.
fn least_start(low: usize, a: usize, b: usize, x: u16, y: u16) -> usize
    ensures { (result ≤ low) × ((a ≡ b → ⊥) → x ≡ y → result ≤ a) }
{
    if a == b || x != y { low } else { low.min(a) }
}

// The lowest of g clusters that an edge leaves to another of its class, or g, if no edge goes to a lower class; else 0. None below lies on a cycle.
// stays: a number, for it is a bound and no find: g says that no cluster lies on a cycle, and 0 says nothing.
fn lowest_within(edges: EdgeLists<'_>, class: &[u16; 512], g: usize) -> usize
    ensures { (result ≤ g) × ((v : ℕ) → v < result → on_cycle (arcs_in edges.entry) g v ≡ false) }
{
    let mut low = g;
    // a sum, since it needs no branch
    let mut sum: u16 = 0;
    for j in 0..edges.starts.len() {
        let a = graph::end_at(edges.starts, j);
        let b = graph::end_at(edges.ends, j);
        let x = class[a];
        let y = class[b];
        sum += u16::from(y < x);
        low = least_start(low, a, b, x, y);
    }
    if sum == 0 { low } else { 0 }
}

// The lowest cluster that an edge leaves inside its guessed class, or g; 0 where the guess fails. None below lies on a cycle.
// stays: a bound, as that of `lowest_within`.
fn guess_lowest(clusters: Clusters<'_, '_>) -> usize
    ensures { (result ≤ clusters.entry.g) × ((v : ℕ) → v < result → on_cycle (arcs_in clusters.entry.links.edges) clusters.entry.g v ≡ false) }
{
    let links = clusters.links;
    let class = classes::guess(links.edges.ends, links.table, clusters.g);
    lowest_within(links.edges, &class, clusters.g)
}

// Whether v lies on a cycle: those set aside do not.
fn is_on_cycle(clusters: Clusters<'_, '_>, aside: &[bool; 512], v: usize) -> bool
    requires off { OffCycles (arcs_in clusters.links.edges) clusters.g aside.now }
    requires v_bound { v < 512 }
    ensures { result ≡ on_cycle (arcs_in clusters.entry.links.edges) clusters.entry.g v }
{
    !aside[v] && returns_to(clusters, v)
}

// The lowest cluster from which a walk comes back, if any.
fn search_cycle(clusters: Clusters<'_, '_>, aside: &[bool; 512]) -> Option<usize>
    requires { OffCycles (arcs_in clusters.links.edges) clusters.g aside.now }
    ensures { result ≡ if_below clusters.entry.g (lowest_on_cycle (arcs_in clusters.entry.links.edges) clusters.entry.g) }
{
    for v in 0..clusters.g {
        if is_on_cycle(clusters, aside, v) {
            return Some(v);
        }
    }
    None
}

// Sets the entries of an order aside.
fn set_aside(order: &[u16], aside: &mut [bool; 512])
    requires { (i : ℕ) → i < length order.now → get_or order.now i 0 < 512 }
    ensures { SetAside order.now (length order.now) aside.old aside.new }
{
    for v in order {
        aside[usize::from(*v)] = true;
    }
}

// The lowest on a cycle, where the order took `taken` and not all: neither these nor what the order of the edges turned round takes need a search.
fn search_rest(clusters: Clusters<'_, '_>, taken: &[u16]) -> Option<usize>
    requires { Ordering (arcs_in clusters.links.edges) clusters.g taken.now (length taken.now) }
    ensures { result ≡ if_below clusters.entry.g (lowest_on_cycle (arcs_in clusters.entry.links.edges) clusters.entry.g) }
{
    let back = EdgeLists {
        starts: clusters.links.edges.ends,
        ends: clusters.links.edges.starts,
    };
    let mut turned = [0u16; 512];
    let count = order(back, clusters.g, &mut turned);
    let mut aside = [false; 512];
    set_aside(taken, &mut aside);
    set_aside(&turned[..count], &mut aside);
    search_cycle(clusters, &aside)
}

// The lowest on a cycle, where the order did not take all: what the guess of classes names is tried first, and the rest searched only where it is not it.
fn search_guessed(clusters: Clusters<'_, '_>, taken: &[u16]) -> Option<usize>
    requires { Ordering (arcs_in clusters.links.edges) clusters.g taken.now (length taken.now) }
    ensures { result ≡ if_below clusters.entry.g (lowest_on_cycle (arcs_in clusters.entry.links.edges) clusters.entry.g) }
{
    let low = guess_lowest(clusters);
    if low < clusters.g && returns_to(clusters, low) {
        return Some(low);
    }
    search_rest(clusters, taken)
}

// The lowest of g clusters that lies on a cycle, if any: the search runs only where the order does not take all.
// The order is left in the front of `taken`, where there is no cycle the levels in `levels`, and in `links` those of the edges that leave each cluster.
pub fn lowest_on_cycle(
    edges: EdgeLists<'_>,
    g: usize,
    taken: &mut [u16; 512],
    levels: &mut [u16; 512],
    links: &mut LinkTable,
) -> Option<usize>
    requires inside { Inside (arcs_in edges) g }
    requires g_bound { g ≤ 512 }
    ensures value { result ≡ if_below g (lowest_on_cycle (arcs_in edges.entry) g) }
    ensures taken_after { taken.new ≡ over (order_of (arcs_in edges.entry) g) taken.old }
    ensures levels_after { result ≡ None → levels.new ≡ over (levels_of (arcs_in edges.entry) g) (zeros 512) }
    ensures linked { Linked (leave (arcs_in edges.entry)) (length edges.entry.starts.now) links.new.head links.new.next }
{
    graph::link_leaving(edges, links);
    let linked = EdgeLinks {
        edges,
        table: links,
    };
    let count = order_by(linked, g, taken, levels);
    if count == g {
        return None;
    }
    let clusters = Clusters { links: linked, g };
    search_guessed(clusters, &taken[..count])
}
