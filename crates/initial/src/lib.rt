// The initial partition: the least division of a row's topological order, on the highest row that has one.
#![tactic(auto)]

ghost use Rattle.std.specs.Prelude.{suc, ◌≡◌, ◌+◌, ◌*◌, ◌<◌, ◌≤◌, length};
ghost use Rattle.folds.specs.Fold.{over};
ghost use Rattle.graph.specs.Graph.{graph_of, Proper};
ghost use Rattle.graph.specs.Lent.{graph_in};
ghost use Rattle.graph.specs.Rows.{clusters, rows_in, Layer, Hierarchy};
ghost use Rattle.graph.specs.Coarse.{Coarse, Stored, LinkedAt};
ghost use Rattle.graph.specs.Totals.{Keyed};
ghost use Rattle.division_table.specs.Promises.{best, within};
ghost use Rattle.division_scan.specs.Placed.{leaving_in};
ghost use Rattle.initial.specs.Initial.{roomy, parts_of, tabled, initial_of, chosen_of};
ghost use Rattle.initial.specs.Promises.{DividedAs, Chooses, Borrowed, OrderOf, OrdersStored, LinkedThere};
ghost use Rattle.initial.specs.Positions.{Once, Inverse};

use division_scan::{Limits, PlacedEdges};
use division_table::NO_CUT;
use graph::{EdgeLinks, LinkTable, Lists, Problem, StoredRows};

// The row that was cut, and its cut.
#[derive(Clone, Copy)]
pub struct FirstCut {
    pub row: usize,
    pub cut: u32,
}

// The place of each cluster in an order of g.
fn invert(order: &[u16], g: usize, at: &mut [u16; 512])
    requires once { Once g order.now }
    requires g_bound { g ≤ 512 }
    ensures { Inverse g order.now at.new }
{
    for i in 0..g {
        at[usize::from(order[i])] = i as u16;
    }
}

// The part of each vertex: the interval of its position.
fn label(places: &[u16], starts: &[u16], table: &mut [u16])
    requires starts_bound { length starts.now ≤ 16 }
    requires places_in_bounds { length places.now ≤ length table.old }
    ensures { table.new ≡ over (parts_of places.now starts.now) table.old }
{
    for (v, p) in places.iter().enumerate() {
        table[v] = division_table::interval(starts, usize::from(*p)) as u16;
    }
}

// The best division of the positions into n + 1 intervals, by a table of N cuts, where `places` has the vertices' positions: its cut, and the
// vertices' parts over the front of the table.
fn search<const N: usize>(
    places: &[u16],
    edges: PlacedEdges<'_>,
    limits: Limits<'_>,
    n: usize,
    table: &mut [u16],
) -> Option<u32>
    requires same_positions { limits.g ≡ length edges.places.now }
    requires cuts_bound { ((limits.g + 1) * 17 ≤ N) × (N ≤ 8721) }
    requires g_nonzero { (0 < limits.g) × (n < 16) × (length places.now ≤ length table.old) }
    ensures { DividedAs (tabled places.now (best (length edges.entry.places.now) (within limits.entry.cost.now limits.entry.bound) (leaving_in edges.entry) n 0)) table.old table.new result }
{
    let mut cut = [NO_CUT; N];
    let mut away = [0u32; 512];
    division_scan::tabulate(edges, limits, n, &mut away, &mut cut);
    let c = cut[n];
    if c >= NO_CUT {
        return None;
    }
    let mut first = [0u16; 16];
    let starts = &mut first[..n];
    division_scan::follow(edges, &cut, starts);
    label(places, starts, table);
    Some(c)
}

// The best division of the positions by the lists of the row's edges, where intervals filled up to the bound are not too many. Of the
// graph by which the contract tests an interval only the costs count.
fn solve(
    costs: &[u16],
    places: &[u16],
    edges: PlacedEdges<'_>,
    bound: u32,
    n: usize,
    table: &mut [u16],
) -> Option<u32>
    requires keyed { Keyed places.now costs.now 512 }
    requires g_nonzero { (0 < length edges.places.now) × (n < 16) × (length places.now ≤ length table.old) }
    ensures { DividedAs (tabled places.now (best (length edges.entry.places.now) (roomy (graph_of costs.now edges.entry.starts.now edges.entry.ends.now edges.entry.widths.now) bound places.now) (leaving_in edges.entry) n 0)) table.old table.new result }
{
    let g = edges.places.len();
    let mut cost = [0u32; 512];
    let mut before = [0u16; 512];
    let mut after = [0u16; 512];
    graph::sum_costs(places, costs, &mut cost);
    division_table::fewest_after(&cost, bound, g, &mut after);
    if n + 1 < usize::from(after[0]) {
        return None;
    }
    division_table::fewest_before(&cost, bound, g, &mut before);
    let limits = Limits {
        g,
        cost: &cost,
        bound,
        before: &before,
        after: &after,
    };
    // a smaller table of cuts where there are few positions
    // stays: an `if` for the size, as in `division_table::fill_fixed`
    if g <= 64 {
        search::<1105>(places, edges, limits, n, table)
    } else {
        search::<8721>(places, edges, limits, n, table)
    }
}

// The initial partition of one row, by the order of its clusters and the lists of its edges: the least cut, and the parts over the front of the
// table. The graph's own edges are lent for the contract alone.
// stays: `Proper` is a clause, here and below: as a field of `Problem` it would be asked of the public calls, which test it first.
fn divide(
    problem: Problem<'_>,
    row: &[u16],
    order: &[u16],
    links: EdgeLinks<'_, '_>,
    widths: &[u32],
    table: &mut [u16],
) -> Option<u32>
    requires proper { Proper (graph_in problem.lists) }
    requires layer { Layer (graph_in problem.lists) row.now }
    requires order_of { OrderOf (graph_in problem.lists) row.now order.now }
    requires coarse { Coarse (graph_in problem.lists) row.now (clusters row.now) links.edges.starts.now links.edges.ends.now widths.now }
    requires k_nonzero { (0 < problem.k) × (problem.k ≤ 16) × (length problem.lists.costs.now ≤ length table.old) }
    ensures { DividedAs (initial_of (graph_in problem.entry.lists) problem.entry.k problem.entry.bound row.now) table.old table.new result }
{
    let Problem { lists, k, bound } = problem;
    let g = graph::cluster_count(row);
    if g < k {
        return None;
    }
    let mut at = [0u16; 512];
    let mut places = [0u16; 512];
    invert(order, g, &mut at);
    graph::through(row, &at, &mut places);
    let edges = PlacedEdges {
        places: &at[..g],
        starts: links.edges.starts,
        ends: links.edges.ends,
        widths,
        order,
        links: links.table,
    };
    solve(
        lists.costs,
        &places[..lists.costs.len()],
        edges,
        bound,
        k - 1,
        table,
    )
}

// The rows from the top one down, with what is stored of each, and the problem.
#[derive(Clone, Copy)]
struct Ladder<'a> {
    problem: Problem<'a>,
    rows: &'a [u16],
    store: StoredRows<'a>,
    top: usize,
    ghost proper: { Proper (graph_in problem.lists) },
    ghost orders_stored: { OrdersStored (graph_in problem.lists) (rows_in rows.now (length problem.lists.costs.now)) top store.orders.now },
    ghost stored: { Stored (graph_in problem.lists) (rows_in rows.now (length problem.lists.costs.now)) top (length problem.lists.starts.now) store.froms.now store.tos.now store.wides.now store.sizes.now },
    ghost held: { (suc top * length problem.lists.costs.now ≤ length rows.now) × (top < 9) },
}

// The initial partition of row r: its entries and its order lie from r × n on, its edges from r × m on.
// stays: `Layer` is a clause, and `Hierarchy` below: they give a vertex of each cluster, and the fact of a field gives no data.
// stays: `LinkedAt` is a clause, here and below: links are written from row to row.
fn divide_at(ladder: Ladder<'_>, r: usize, links: &LinkTable, table: &mut [u16]) -> Option<u32>
    requires r_bound { r ≤ ladder.top }
    requires layer { Layer (graph_in ladder.problem.lists) (rows_in ladder.rows.now (length ladder.problem.lists.costs.now) r) }
    requires linked_at { LinkedAt (length ladder.problem.lists.starts.now) r ladder.store.froms.now ladder.store.tos.now ladder.store.sizes.now links.now.head links.now.next }
    requires k_nonzero { (0 < ladder.problem.k) × (ladder.problem.k ≤ 16) × (length ladder.problem.lists.costs.now ≤ length table.old) }
    ensures { DividedAs (initial_of (graph_in ladder.entry.problem.lists) ladder.entry.problem.k ladder.entry.problem.bound (rows_in ladder.entry.rows.now (length ladder.entry.problem.lists.costs.now) r)) table.old table.new result }
{
    let Ladder {
        problem,
        rows,
        store,
        ..
    } = ladder;
    let n = problem.lists.costs.len();
    let m = problem.lists.starts.len();
    let at = r * n;
    let edges = EdgeLinks {
        edges: store.edges(m, r),
        table: links,
    };
    divide(
        problem,
        &rows[at..at + n],
        &store.orders[at..at + n],
        edges,
        store.widths(m, r),
        table,
    )
}

// The initial partition: of the rows 0 to top, from the highest down, the first that has a division.
// Of the entries that the store has in `orders` of row r the first are its clusters in topological order; the lists of its edges lie from r × m on.
// The links are those of row top, and afterwards those of the row that was cut.
pub fn choose<'x>(
    problem: Problem<'x>,
    rows: &'x [u16],
    store: StoredRows<'x>,
    links: &mut LinkTable,
    top: usize,
    table: &mut [u16],
) -> Option<FirstCut>
    requires proper { Proper (graph_in problem.lists) }
    requires hierarchy { Hierarchy (graph_in problem.lists) (rows_in rows.now (length problem.lists.costs.now)) top }
    requires orders_stored { OrdersStored (graph_in problem.lists) (rows_in rows.now (length problem.lists.costs.now)) top store.orders.now }
    requires stored { Stored (graph_in problem.lists) (rows_in rows.now (length problem.lists.costs.now)) top (length problem.lists.starts.now) store.froms.now store.tos.now store.wides.now store.sizes.now }
    requires linked_at { LinkedAt (length problem.lists.starts.now) top store.froms.now store.tos.now store.sizes.now links.old.head links.old.next }
    requires borrowed { Borrowed (length problem.lists.costs.now) problem.k top rows.now table.old }
    ensures chooses { Chooses (chosen_of (graph_in problem.entry.lists) problem.entry.k problem.entry.bound (rows_in rows.now (length problem.entry.lists.costs.now)) top) table.old table.new result }
    ensures linked_there { LinkedThere (length problem.entry.lists.starts.now) store.entry.froms.now store.entry.tos.now store.entry.sizes.now links.new.head links.new.next result }
{
    let ladder = Ladder {
        problem,
        rows,
        store,
        top,
    };
    let m = problem.lists.starts.len();
    for row in (0..top + 1).rev() {
        store.link_row(m, row, top, links);
        if let Some(cut) = divide_at(ladder, row, links, table) {
            return Some(FirstCut { row, cut });
        }
    }
    None
}
