// The lists of the edges that are joined.

ghost use Rattle.std.specs.Prelude.{◌≡◌, length};
ghost use Rattle.graph.specs.Graph.{arcs};
ghost use Rattle.graph.specs.Links.{Linked, Joins, leave};
ghost use Rattle.graph.specs.Coarse.{Narrow};

use graph::LinkTable;

// Edges between the clusters of a row: the row, which vertices each edge joins, and how wide it is.
#[derive(Clone, Copy)]
pub struct RowEdges<'a> {
    pub row: &'a [u16],
    pub starts: &'a [u16],
    pub ends: &'a [u16],
    pub widths: &'a [u32],
    ghost joins: { Joins row.now starts.now ends.now },
    ghost measured: { length widths.now ≡ length starts.now },
    ghost narrow: { Narrow widths.now },
}

// Such edges, and the lists of those that leave each cluster.
#[derive(Clone, Copy)]
pub struct RowLinks<'a, 'b> {
    pub edges: RowEdges<'a>,
    pub table: &'b LinkTable,
    ghost linked: { Linked (leave (arcs edges.row.now edges.starts.now edges.ends.now)) (length edges.starts.now) table.now.head table.now.next },
}
