// Graphs, rows and tables: clusters at the ends of edges, edges in lists by key, the cut of a table, costs summed by key.
#![tactic(auto)]

ghost use Rattle.std.specs.Prelude.{◌≡◌, ℕ, ◌+◌, ◌*◌, ◌<◌, ◌≤◌, max, length, get_or, slice_index};
ghost use Rattle.folds.specs.Fold.{Read, over, part};
ghost use Rattle.graph.specs.Rows.{clusters};
ghost use Rattle.graph.specs.Coarse.{RowLists, LinkedAt};
ghost use Rattle.graph.specs.Totals.{Keyed, Totals};
ghost use Rattle.graph.specs.Graph.{identity, arcs, joining, through, cut};
ghost use Rattle.graph.specs.Links.{Linked, Ends, Joins, Named, Ended, Cluster, Crossing, leave, Leaves};

// A graph by the lists that the caller lends: what each vertex costs; where each edge starts, where it ends and how wide it is.
// stays: four lists side by side, as C lends them.
#[derive(Clone, Copy)]
pub struct Lists<'a> {
    pub costs: &'a [u16],
    pub starts: &'a [u16],
    pub ends: &'a [u16],
    pub widths: &'a [u16],
}

// What a call is asked: the graph, how many parts there are to be, and the most that a part may cost.
#[derive(Clone, Copy)]
pub struct Problem<'a> {
    pub lists: Lists<'a>,
    pub k: usize,
    pub bound: u32,
}

// Edges between clusters, at most 1,024: where each starts and where it ends.
#[derive(Clone, Copy)]
pub struct EdgeLists<'a> {
    pub starts: &'a [u16],
    pub ends: &'a [u16],
    ghost ended: { Ended starts.now ends.now },
}

// For each key the first edge that has it, and after each edge the next of the same key.
// stays: lists of numbers of edges, of fixed size, since there is no heap; a list ends at how many there are: entries have 16 bits, which an `Option` has not.
#[derive(Clone, Copy)]
pub struct LinkTable {
    pub head: [u16; 513],
    pub next: [u16; 1024],
}

// Edges, and the lists of those that leave each cluster.
#[derive(Clone, Copy)]
pub struct EdgeLinks<'a, 'b> {
    pub edges: EdgeLists<'a>,
    pub table: &'b LinkTable,
    ghost linked: { Linked (leave (joining edges.starts.now edges.ends.now)) (length edges.starts.now) table.now.head table.now.next },
}

// stays: `first` and `after` hand on what ends a list as it is: a walk tests for it once an edge, as it would for none.
// stays: walks along links, all in other crates, count nothing; an iterator would need a law of what it yields beside `Linked`.
// stays: bounds of a single number (`u < 512`, `g ≤ 512`) are clauses, here and in other crates: a type would be made at each entry read and taken apart at each index.
impl EdgeLinks<'_, '_> {
    // The first edge that leaves u, or how many edges there are.
    pub fn first(self, u: usize) -> usize
        requires { u < 512 }
        ensures { result ≡ slice_index self.entry.table.now.head u }
    {
        usize::from(self.table.head[u])
    }

    // The next edge that leaves the cluster that edge j leaves, or how many edges there are.
    pub fn after(self, j: usize) -> usize
        requires { j < length self.edges.starts.now }
        ensures { result ≡ slice_index self.entry.table.now.next j }
    {
        usize::from(self.table.next[j])
    }
}

// What is kept of each row: its joined edges, from r × m on for row r, `sizes` of them, and the topological order of its clusters, from r × n on.
// stays: lists that are lent for all rows, and how much of each is used: no heap, so that the rows lie end to end.
// stays: three lists of edges side by side: links and orders read two of them, as they read those that C lends (`EdgeLists`).
#[derive(Drop)]
pub struct RowStore<'a> {
    pub froms: &'a mut [u16],
    pub tos: &'a mut [u16],
    pub wides: &'a mut [u32],
    pub sizes: [u16; 9],
    pub orders: &'a mut [u16],
}

// What is kept of each row, as it is lent to those who only read it.
// stays: the fields of `RowStore` once more: that one writes its lists (`&mut`), this one is copied and asks for lists to read (`&`); no type is both.
#[derive(Clone, Copy)]
pub struct StoredRows<'a> {
    pub froms: &'a [u16],
    pub tos: &'a [u16],
    pub wides: &'a [u32],
    pub sizes: &'a [u16; 9],
    pub orders: &'a [u16],
}

impl RowStore<'_> {
    // All that is kept, to read.
    pub fn view(&self) -> StoredRows<'_>
        ensures froms { result.froms.now ≡ self.now.froms.now }
        ensures tos { result.tos.now ≡ self.now.tos.now }
        ensures wides { result.wides.now ≡ self.now.wides.now }
        ensures sizes { result.sizes.now ≡ self.now.sizes }
        ensures orders { result.orders.now ≡ self.now.orders.now }
    {
        StoredRows {
            froms: self.froms,
            tos: self.tos,
            wides: self.wides,
            sizes: &self.sizes,
            orders: self.orders,
        }
    }
}

impl<'a> StoredRows<'a> {
    // The edges of row r, where the rows have room for m each.
    pub fn edges(self, m: usize, r: usize) -> EdgeLists<'a>
        requires row_lists { RowLists m r self.froms.now self.tos.now self.sizes.now }
        requires r_bound { r < 9 }
        ensures starts { result.starts.now ≡ part self.entry.froms.now (r * m) (get_or self.entry.sizes.now r 0) }
        ensures ends { result.ends.now ≡ part self.entry.tos.now (r * m) (get_or self.entry.sizes.now r 0) }
    {
        let a = r * m;
        let b = a + usize::from(self.sizes[r]);
        EdgeLists {
            starts: &self.froms[a..b],
            ends: &self.tos[a..b],
        }
    }

    // Their widths.
    pub fn widths(self, m: usize, r: usize) -> &'a [u32]
        requires { (r < 9) × (r * m + get_or self.sizes.now r 0 ≤ length self.wides.now) }
        ensures { result.now ≡ part self.entry.wides.now (r * m) (get_or self.entry.sizes.now r 0) }
    {
        let a = r * m;
        &self.wides[a..a + usize::from(self.sizes[r])]
    }

    // Fills the links for row r, where this is not the row for which they are lent.
    pub fn link_row(self, m: usize, r: usize, lent: usize, links: &mut LinkTable)
        requires row_lists { RowLists m r self.froms.now self.tos.now self.sizes.now }
        requires r_bound { r < 9 }
        requires linked_at { r ≡ lent → LinkedAt m r self.froms.now self.tos.now self.sizes.now links.old.head links.old.next }
        ensures { LinkedAt m r self.entry.froms.now self.entry.tos.now self.entry.sizes.now links.new.head links.new.next }
    {
        if r != lent {
            link_leaving(self.edges(m, r), links);
        }
    }
}

// Row 0: each entry becomes its own index, so that each vertex is its own cluster.
pub fn number_entries(row: &mut [u16])
    requires { length row.old ≤ 65536 }
    ensures { row.new ≡ identity (length row.old) }
{
    for (v, entry) in row.iter_mut().enumerate() {
        *entry = v as u16;
    }
}

// The cluster at which edge j has its end.
pub fn cluster(row: &[u16], ends: &[u16], j: usize) -> usize
    requires ends { Ends row.now ends.now }
    requires j_in_bounds { j < length ends.now }
    ensures { Cluster row.now ends.now j result }
{
    usize::from(row[usize::from(ends[j])])
}

// The cluster at which edge i has its end, in a list that names clusters.
pub fn end_at(ends: &[u16], i: usize) -> usize
    requires named { Named ends.now }
    requires i_in_bounds { i < length ends.now }
    ensures { Read ends.now i 512 result }
{
    usize::from(ends[i])
}

// The cluster that edge j leaves, or 512 where it has one cluster at both ends.
// stays: 512 for none: `head` has a place for it, so that `link_leaving` needs no case for none.
fn leaving_at(edges: EdgeLists<'_>, j: usize) -> usize
    requires { j < length edges.starts.now }
    ensures { Leaves (joining edges.entry.starts.now edges.entry.ends.now) j result }
{
    let a = end_at(edges.starts, j);
    let b = end_at(edges.ends, j);
    if a == b { 512 } else { a }
}

// Fills the lists of the edges that leave each cluster, from the last edge down.
pub fn link_leaving(edges: EdgeLists<'_>, links: &mut LinkTable)
    ensures { Linked (leave (joining edges.entry.starts.now edges.entry.ends.now)) (length edges.entry.starts.now) links.new.head links.new.next }
{
    let m = edges.starts.len();
    links.head = [m as u16; 513];
    for j in (0..m).rev() {
        let a = leaving_at(edges, j);
        links.next[j] = links.head[a];
        links.head[a] = j as u16;
    }
}

// The width of edge j where its ends lie in different parts, else 0.
// stays: a table and three lists, here and in `cut_of`: `Joins` speaks of both; a type of both would be built for one caller (`joined_edges` has one of wider widths).
pub fn crossing(parts: &[u16], starts: &[u16], ends: &[u16], widths: &[u16], j: usize) -> u32
    requires joins { Joins parts.now starts.now ends.now }
    requires j_in_bounds { (j < length starts.now) × (length widths.now ≡ length starts.now) }
    ensures { Crossing (arcs parts.now starts.now ends.now) widths.now j result }
{
    let a = cluster(parts, starts, j);
    let b = cluster(parts, ends, j);
    if a == b {
        return 0;
    }
    u32::from(widths[j])
}

// The cut of a table.
pub fn cut_of(parts: &[u16], starts: &[u16], ends: &[u16], widths: &[u16]) -> u32
    requires joins { Joins parts.now starts.now ends.now }
    requires widths_len { length widths.now ≡ length starts.now }
    ensures { result ≡ cut (arcs parts.now starts.now ends.now) widths.now }
{
    let mut sum = 0;
    for j in 0..starts.len() {
        sum += crossing(parts, starts, ends, widths, j);
    }
    sum
}

// Adds each cost to the sum of its key.
pub fn sum_costs(keys: &[u16], costs: &[u16], sums: &mut [u32])
    requires keyed { Keyed keys.now costs.now (length sums.old) }
    requires by_index { (u : ℕ) → u < length sums.old → get_or sums.old u 0 ≡ 0 }
    ensures { Totals keys.now costs.now (length sums.old) (length costs.now) sums.new }
{
    for v in 0..costs.len() {
        sums[usize::from(keys[v])] += u32::from(costs[v]);
    }
}

// How many clusters a row has.
pub fn cluster_count(row: &[u16]) -> usize
    ensures { result ≡ clusters row.now }
{
    let mut count: usize = 0;
    for c in row {
        count = count.max(usize::from(*c) + 1);
    }
    count
}

// The entry of `table` for the cluster of each vertex, over the front of out.
pub fn through(row: &[u16], table: &[u16; 512], out: &mut [u16])
    requires by_index { (v : ℕ) → v < length row.now → get_or row.now v 0 < 512 }
    requires table_len { length row.now ≤ length out.old }
    ensures { out.new ≡ over (through row.now table.now) out.old }
{
    for (v, c) in row.iter().enumerate() {
        out[v] = table[usize::from(*c)];
    }
}
