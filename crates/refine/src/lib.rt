// Refinement: passes over the clusters of a rung until one moves nothing, down the rungs.
#![tactic(auto)]

ghost use Rattle.std.specs.Prelude.{◌≡◌, ◌*◌, ◌<◌, ◌≤◌, length, take};
ghost use Rattle.graph.specs.Graph.{cut_of, through};
ghost use Rattle.graph.specs.Lent.{graph_in};
ghost use Rattle.graph.specs.Rows.{rows_in};
ghost use Rattle.graph.specs.Coarse.{Stored, LinkedAt};
ghost use Rattle.refinement.specs.Pass.{tally_of, refined};
ghost use Rattle.refine.specs.Down.{Descends, Refined};
ghost use Rattle.refine.specs.Rung.{RowReady, Tracks, Settled, RefinedRow};
ghost use Rattle.refine.specs.Tables.{Shared, Inherits};

mod row;

use graph::{EdgeLinks, EdgeLists, LinkTable, Lists, Problem, StoredRows};
use neighbours::{LinkedEdges, Mark, Numbers, PartTable};
use part_sums::PartSums;
use pass::{Progress, Row};
use row::{JoinedRow, Ladder};

// Gives each cluster the part of its vertices.
fn inherit(row: &[u16], parts: &[u16], table: &mut PartTable)
    requires { Shared row.now parts.now }
    ensures { Inherits row.now parts.now (length row.now) table.new.parts }
{
    for v in 0..row.len() {
        table.parts[usize::from(row[v])] = parts[v];
    }
}

// Passes over the clusters of a row until one moves nothing.
fn settle(joined: JoinedRow<'_>, table: &mut PartTable, before: Progress) -> Progress
    requires tracks { Tracks (graph_in joined.lists) (through joined.row.now table.old.parts) before.sums.count before.sums before.cut }
    requires row_ready { RowReady (graph_in joined.lists) before.sums.count joined.bound joined.row.now (through joined.row.now table.old.parts) before.moves }
    ensures { Settled (graph_in joined.entry.lists) before.sums.count joined.entry.bound joined.entry.row.now table.old.parts before.moves table.new.parts result }
{
    let out = joined.links.edges;
    let back = EdgeLists {
        starts: out.ends,
        ends: out.starts,
    };
    let mut into = LinkTable {
        head: [0u16; 513],
        next: [0u16; 1024],
    };
    graph::link_leaving(back, &mut into);
    let mut costs = [0u32; 512];
    graph::sum_costs(joined.row, joined.lists.costs, &mut costs);
    let g = graph::cluster_count(joined.row);
    let mut numbers = Numbers {
        low: [0u16; 512],
        high: [0u16; 512],
        marks: [Mark::Stale; 512],
    };
    neighbours::survey(out, table, before.sums.count, g, &mut numbers);
    let edges = LinkedEdges {
        from: out.starts,
        to: out.ends,
        out: joined.links.table,
        into: &into,
    };
    let row = Row {
        edges,
        widths: joined.widths,
        costs: &costs,
        bound: joined.bound,
    };
    let mut p = before;
    loop {
        p = pass::pass(&row, g, table, &mut numbers, p);
        if !p.moved {
            return p;
        }
    }
}

// The refinement on one row, by the lists of its edges, from a table of the vertices' parts, its sums and its cut.
fn refine_row(joined: JoinedRow<'_>, parts: &mut [u16], before: Progress) -> Progress
    requires row_ready { RowReady (graph_in joined.lists) before.sums.count joined.bound joined.row.now parts.old before.moves }
    requires tracks { Tracks (graph_in joined.lists) parts.old before.sums.count before.sums before.cut }
    ensures { RefinedRow (graph_in joined.entry.lists) before.sums.count joined.entry.bound joined.entry.row.now parts.old before.moves parts.new result }
{
    let mut table = PartTable { parts: [0u16; 512] };
    inherit(joined.row, parts, &mut table);
    let after = settle(joined, &mut table, before);
    graph::through(joined.row, &table.parts, parts);
    after
}

// The refinement on row r: the part of the ladder from r × n on, with the lists of its edges, the parts of the lists from r × m on.
fn refine_at<'x>(
    ladder: Ladder<'x>,
    r: usize,
    links: &'x LinkTable,
    parts: &mut [u16],
    before: Progress,
) -> Progress
    requires row_ready { RowReady (graph_in ladder.lists) before.sums.count ladder.bound (rows_in ladder.rows.now (length ladder.lists.costs.now) r) parts.old before.moves }
    requires tracks { Tracks (graph_in ladder.lists) parts.old before.sums.count before.sums before.cut }
    requires linked_at { LinkedAt (length ladder.lists.starts.now) r ladder.store.froms.now ladder.store.tos.now ladder.store.sizes.now links.now.head links.now.next }
    requires r_bound { r ≤ ladder.rung }
    ensures { RefinedRow (graph_in ladder.entry.lists) before.sums.count ladder.entry.bound (rows_in ladder.entry.rows.now (length ladder.entry.lists.costs.now) r) parts.old before.moves parts.new result }
{
    let n = ladder.lists.costs.len();
    let m = ladder.lists.starts.len();
    let a = r * n;
    let links = EdgeLinks {
        edges: ladder.store.edges(m, r),
        table: links,
    };
    let joined = JoinedRow {
        lists: ladder.lists,
        bound: ladder.bound,
        row: &ladder.rows[a..a + n],
        links,
        widths: ladder.store.widths(m, r),
    };
    refine_row(joined, parts, before)
}

// What a refinement answers.
#[derive(Clone, Copy)]
pub struct Outcome {
    pub cut: u32,
    pub moves: usize,
}

// The refinement on a rung and then on each lower one. The sums and the cut go from row to row.
fn refine_down(
    ladder: Ladder<'_>,
    k: usize,
    links: &mut LinkTable,
    cut: u32,
    parts: &mut [u16],
) -> Outcome
    requires descends { Descends (graph_in ladder.lists) k ladder.bound ladder.rows.now ladder.rung parts.old }
    requires linked_at { LinkedAt (length ladder.lists.starts.now) ladder.rung ladder.store.froms.now ladder.store.tos.now ladder.store.sizes.now links.old.head links.old.next }
    requires cut_value { cut ≡ cut_of (graph_in ladder.lists) parts.old }
    ensures moves_after { tally_of parts.new result.moves ≡ refined (graph_in ladder.entry.lists) k ladder.entry.bound (rows_in ladder.entry.rows.now (length ladder.entry.lists.costs.now)) ladder.entry.rung parts.old }
    ensures cut_value_2 { result.cut ≡ cut_of (graph_in ladder.entry.lists) parts.new }
{
    let m = ladder.lists.starts.len();
    let sums = PartSums::of_table(ladder.lists.costs, parts, k);
    let mut p = Progress {
        sums,
        cut,
        moves: 0,
        moved: false,
    };
    for r in (0..ladder.rung + 1).rev() {
        ladder.store.link_row(m, r, ladder.rung, links);
        p = refine_at(ladder, r, links, parts, p);
    }
    Outcome {
        cut: p.cut,
        moves: p.moves,
    }
}

// The refinement of a table, whose cut is given, from a rung of the ladder down to the vertices, by the stored lists of the rungs' edges and
// the links of that rung's edges. The links are written over; entries of the table past the vertices are untouched.
pub fn refine<'x>(
    problem: Problem<'x>,
    rows: &'x [u16],
    store: StoredRows<'x>,
    links: &mut LinkTable,
    rung: usize,
    cut: u32,
    table: &mut [u16],
) -> Outcome
    requires costs_in_bounds { length problem.lists.costs.now ≤ length table.old }
    requires descends { Descends (graph_in problem.lists) problem.k problem.bound rows.now rung (take (length problem.lists.costs.now) table.old) }
    requires stored { Stored (graph_in problem.lists) (rows_in rows.now (length problem.lists.costs.now)) rung (length problem.lists.starts.now) store.froms.now store.tos.now store.wides.now store.sizes.now }
    requires linked_at { LinkedAt (length problem.lists.starts.now) rung store.froms.now store.tos.now store.sizes.now links.old.head links.old.next }
    requires rung_bound { rung < 9 }
    requires cut_value { cut ≡ cut_of (graph_in problem.lists) (take (length problem.lists.costs.now) table.old) }
    ensures { Refined (graph_in problem.entry.lists) problem.entry.k problem.entry.bound rows.now rung table.old table.new result }
{
    let Problem { lists, k, bound } = problem;
    let ladder = Ladder {
        lists,
        bound,
        rows,
        store,
        rung,
    };
    let n = lists.costs.len();
    refine_down(ladder, k, links, cut, &mut table[..n])
}
