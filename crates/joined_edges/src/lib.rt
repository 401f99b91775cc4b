// One edge for all edges from one cluster to another, with their summed width.
#![tactic(auto)]

ghost use Rattle.std.specs.Prelude.{◌≡◌, ◌+◌, ◌<◌, ◌≤◌, length};
ghost use Rattle.folds.specs.Fold.{zeros};
ghost use Rattle.graph.specs.Graph.{Inside};
ghost use Rattle.graph.specs.Links.{Linked, leave, Leaves};
ghost use Rattle.joined_edges.specs.Joining.{Widths, Written, Put};
ghost use Rattle.joined_edges.specs.Lent.{arcs_in};

mod edges;

pub use edges::RowEdges;
use edges::RowLinks;
use graph::LinkTable;

// Joined edges: the first `count` entries of each list.
// stays: arrays of fixed size and a count, since there is no heap.
#[derive(Clone, Copy)]
pub struct Joined {
    pub froms: [u16; 1024],
    pub tos: [u16; 1024],
    pub widths: [u32; 1024],
    pub count: usize,
}

impl Joined {
    // Lists an edge from u to b, with the sum of b, where that is not 0, and sets the sum to 0.
    // stays: a sum of 0 is none, or one that is listed already: `add_widths` adds to it with no case for none, and no edge of width 0 is listed.
    fn put(&mut self, u: usize, b: usize, sums: &mut [u32; 512])
        requires { (u < 512) × (b < 512) × (self.old.count < 1024) }
        ensures { Put u b self.old.count sums.old self.old.froms self.old.tos self.old.widths sums.new self.new.froms self.new.tos self.new.widths self.new.count }
    {
        let w = sums[b];
        sums[b] = 0;
        if w == 0 {
            return;
        }
        let k = self.count;
        self.froms[k] = u as u16;
        self.tos[k] = b as u16;
        self.widths[k] = w;
        self.count = k + 1;
    }
}

// Adds the width of each edge that leaves u to the entry of the cluster it goes to.
fn add_widths(links: RowLinks<'_, '_>, u: usize, sums: &mut [u32; 512])
    requires u_bound { u < 512 }
    requires sums_value { sums.old ≡ zeros 512 }
    ensures { Widths (arcs_in links.entry.edges) links.entry.edges.widths.now u (length links.entry.edges.starts.now) sums.new }
{
    let edges = links.edges;
    let m = edges.starts.len();
    let mut j = usize::from(links.table.head[u]);
    while j < m {
        let b = graph::cluster(edges.row, edges.ends, j);
        sums[b] += edges.widths[j];
        j = usize::from(links.table.next[j]);
    }
}

// Lists an edge for each cluster that edges of u go to, and sets the sums back to 0.
fn emit(links: RowLinks<'_, '_>, g: usize, u: usize, sums: &mut [u32; 512], joined: &mut Joined)
    requires u_bound { (u < 512) × Inside (arcs_in links.edges) g }
    requires widths { Widths (arcs_in links.edges) links.edges.widths.now u (length links.edges.starts.now) sums.old }
    requires written { Written (arcs_in links.edges) links.edges.widths.now g u joined.old.count joined.old.froms joined.old.tos joined.old.widths }
    ensures written { Written (arcs_in links.entry.edges) links.entry.edges.widths.now g (u + 1) joined.new.count joined.new.froms joined.new.tos joined.new.widths }
    ensures sums_value { sums.new ≡ zeros 512 }
{
    let edges = links.edges;
    let m = edges.starts.len();
    let mut j = usize::from(links.table.head[u]);
    while j < m {
        let b = graph::cluster(edges.row, edges.ends, j);
        joined.put(u, b, sums);
        j = usize::from(links.table.next[j]);
    }
}

// The cluster that edge j leaves, or 512 where both its ends lie in one.
// stays: 512 for none, as in `graph::leaving_at`, of which this is a twin but for the row: `head` has a place for it, so that no case is needed.
fn leaves(edges: RowEdges<'_>, j: usize) -> usize
    requires { j < length edges.starts.now }
    ensures { Leaves (arcs_in edges.entry) j result }
{
    let a = graph::cluster(edges.row, edges.starts, j);
    let b = graph::cluster(edges.row, edges.ends, j);
    if a == b { 512 } else { a }
}

// Fills the lists of the edges that leave a cluster, from the last edge down.
// stays: `graph::link_leaving` but for the row that ends are read through: one of both takes a closure, with clauses longer than this.
fn fill_leaving(edges: RowEdges<'_>, table: &mut LinkTable)
    ensures { Linked (leave (arcs_in edges.entry)) (length edges.entry.starts.now) table.new.head table.new.next }
{
    let m = edges.starts.len();
    table.head = [m as u16; 513];
    for j in (0..m).rev() {
        let k = leaves(edges, j);
        table.next[j] = table.head[k];
        table.head[k] = j as u16;
    }
}

// Lists the edges between the g clusters of a row, all from one to another as one with their summed width.
pub fn join_edges(edges: RowEdges<'_>, g: usize, joined: &mut Joined)
    requires { (g ≤ 512) × Inside (arcs_in edges) g }
    ensures { Written (arcs_in edges.entry) edges.entry.widths.now g g joined.new.count joined.new.froms joined.new.tos joined.new.widths }
{
    let mut table = LinkTable {
        head: [0; 513],
        next: [0; 1024],
    };
    let mut sums = [0; 512];
    fill_leaving(edges, &mut table);
    let links = RowLinks {
        edges,
        table: &table,
    };
    joined.count = 0;
    for u in 0..g {
        add_widths(links, u, &mut sums);
        emit(links, g, u, &mut sums, joined);
    }
}
