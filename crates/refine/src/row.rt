// The rungs that are refined, and the row of one of them.

ghost use Rattle.std.specs.Prelude.{suc, ◌*◌, ◌<◌, ◌≤◌, length};
ghost use Rattle.graph.specs.Rows.{clusters, rows_in};
ghost use Rattle.graph.specs.Coarse.{Coarse, Stored};
ghost use Rattle.graph.specs.Lent.{graph_in};

use graph::{EdgeLinks, Lists, StoredRows};

// The rows from a rung down with what is stored of each, and the bound of a part.
#[derive(Clone, Copy)]
pub struct Ladder<'a> {
    pub lists: Lists<'a>,
    pub bound: u32,
    pub rows: &'a [u16],
    pub store: StoredRows<'a>,
    pub rung: usize,
    ghost stored: { Stored (graph_in lists) (rows_in rows.now (length lists.costs.now)) rung (length lists.starts.now) store.froms.now store.tos.now store.wides.now store.sizes.now },
    ghost held: { (suc rung * length lists.costs.now ≤ length rows.now) × (rung < 9) },
}

// One row: each vertex's cluster, the joined edges with the links of those that leave each cluster, and their widths. The graph's own edges are lent
// for the contracts alone.
// stays: that a table is good on the row and that the sums are its own are clauses (`RowReady`, `Tracks`): the table is written and the sums are handed on.
#[derive(Clone, Copy)]
pub struct JoinedRow<'a> {
    pub lists: Lists<'a>,
    pub bound: u32,
    pub row: &'a [u16],
    pub links: EdgeLinks<'a, 'a>,
    pub widths: &'a [u32],
    ghost coarse: { Coarse (graph_in lists) row.now (clusters row.now) links.edges.starts.now links.edges.ends.now widths.now },
}
