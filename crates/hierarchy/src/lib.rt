// The rows of the hierarchy: rounds kept and dropped, each row by its own round.
#![tactic(auto)]

ghost use Rattle.std.specs.Prelude.{◌≡◌, ◌+◌, ◌*◌, ◌<◌, ◌≤◌, length, get_or, take};
ghost use Rattle.graph.specs.Rows.{Layer, rows_in};
ghost use Rattle.folds.specs.Fold.{sum_to, over, part, zeros, most_cost};
ghost use Rattle.graph.specs.Graph.{identity, arcs, joining, Inside};
ghost use Rattle.graph.specs.Lent.{graph_in, arcs_in};
ghost use Rattle.graph.specs.Links.{Linked, Ended, leave};
ghost use Rattle.graph.specs.Coarse.{LinkedAt};
ghost use Rattle.topology.specs.Order.{order_of};
ghost use Rattle.topology.specs.Level.{levels_of};
ghost use Rattle.matching.specs.Promises.{RoundReady};
ghost use Rattle.hierarchy.specs.Promises.{Carries, JoinsRow, Carried, Carrying, LevelsAt, RowsRoom, Steps, HandsOn, HandedOn, Buildable, Built};

use graph::{EdgeLinks, EdgeLists, LinkTable, Lists, Problem, RowStore, StoredRows};
use matching_scan::Scan;
use row_lists::Renaming;

// What rows are built by: a problem of at most 16 parts, whose costs are not too many.
#[derive(Clone, Copy)]
struct Plan<'a> {
    problem: Problem<'a>,
    ghost few: { problem.k ≤ 16 },
    ghost light: { sum_to (length problem.lists.costs.now) (λ v. get_or problem.lists.costs.now v 0) ≤ most_cost },
}

// Of the last row alone: the links of its edges, the levels of its clusters, and their costs. Each call promises that the links stay the caller's table.
// stays: arrays of 512, of which a row's clusters take the front: no heap, and their number is handed on beside the row that it is of.
// stays: that promise is a clause of four functions: it compares what a call is given with what it leaves, and a type's fact speaks of one value.
#[derive(Drop)]
struct Last<'a> {
    links: &'a mut LinkTable,
    levels: &'a mut [u16; 512],
    weights: [u32; 512],
}

// A round on row r, whose row follows it where the round is kept. Answers how many clusters that has.
fn join_row(
    plan: Plan<'_>,
    scan: Scan<'_, '_>,
    order: &[u16],
    map: &mut [u16; 512],
    rows: &mut [u16],
    r: usize,
    g: usize,
) -> Option<usize>
    requires round_ready { RoundReady (graph_in plan.problem.lists) (rows_in rows.old (length plan.problem.lists.costs.now) r) g }
    requires carries { Carries (graph_in plan.problem.lists) (rows_in rows.old (length plan.problem.lists.costs.now) r) g scan.costs.now scan.links.edges.starts.now scan.links.edges.ends.now scan.widths.now order.now }
    requires r_bound { (r < 8) × (scan.levels.now ≡ over (levels_of (arcs_in scan.links.edges) g) (zeros 512)) }
    requires costs_in_bounds { 9 * length plan.problem.lists.costs.now ≤ length rows.old }
    ensures { JoinsRow (graph_in plan.entry.problem.lists) plan.entry.problem.k scan.entry.bound r rows.old rows.new map.new result }
{
    if g <= 2 * plan.problem.k {
        return None;
    }
    let n = plan.problem.lists.costs.len();
    let a = r * n;
    let b = a + n;
    let (mates, pairs) = matching::round(scan, order, g);
    if 10 * pairs < g {
        return None;
    }
    let mut out = [0; 512];
    let h = contraction::next_row(&rows[a..b], &mates, map, &mut out);
    row_lists::copy(&out[..n], rows, b);
    Some(h)
}

// The round on row r, by what is carried of it.
// stays: `RoundReady` with `Layer`, `Carrying`, `LinkedAt` with `LevelsAt` are clauses, here and below: they speak of r and g beside rows, store or last, which change one by one.
// stays: `RowsRoom` is a clause, here and below: rows and store are lent apart, and a type of both would be built for it alone.
fn join_at<'x>(
    plan: Plan<'_>,
    store: StoredRows<'x>,
    last: &'x Last<'_>,
    map: &mut [u16; 512],
    rows: &mut [u16],
    r: usize,
    g: usize,
) -> Option<usize>
    requires round_ready { RoundReady (graph_in plan.problem.lists) (rows_in rows.old (length plan.problem.lists.costs.now) r) g × Layer (graph_in plan.problem.lists) (rows_in rows.old (length plan.problem.lists.costs.now) r) }
    requires carrying { Carrying (graph_in plan.problem.lists) rows.old r g store.froms.now store.tos.now store.wides.now store.sizes.now store.orders.now last.now.weights }
    requires rows_room { RowsRoom (graph_in plan.problem.lists) rows.old store.froms.now store.tos.now store.wides.now store.sizes.now store.orders.now }
    requires r_bound { (r < 8) × (g ≤ length plan.problem.lists.costs.now) × LinkedAt (length plan.problem.lists.starts.now) r store.froms.now store.tos.now store.sizes.now last.now.links.now.head last.now.links.now.next × LevelsAt (length plan.problem.lists.starts.now) r g store.froms.now store.tos.now store.sizes.now last.now.levels.now }
    ensures { JoinsRow (graph_in plan.entry.problem.lists) plan.entry.problem.k plan.entry.problem.bound r rows.old rows.new map.new result }
{
    let n = plan.problem.lists.costs.len();
    let m = plan.problem.lists.starts.len();
    let a = r * n;
    let links = EdgeLinks {
        edges: store.edges(m, r),
        table: last.links,
    };
    let scan = Scan {
        links,
        widths: store.widths(m, r),
        levels: last.levels,
        costs: &last.weights,
        bound: plan.problem.bound,
    };
    join_row(plan, scan, &store.orders[a..a + n], map, rows, r, g)
}

// The links, the order and the levels of h clusters, by the edges between them, `count` of the lists from b on.
// stays: froms and tos are lent as `&mut` and only read, for the check has no rule for fields lent as `&` beside the orders.
fn order_row(
    froms: &mut [u16],
    tos: &mut [u16],
    b: usize,
    count: usize,
    h: usize,
    order: &mut [u16],
    last: &mut Last<'_>,
)
    requires ended { Ended (part froms.old b count) (part tos.old b count) }
    requires inside { Inside (joining (part froms.old b count) (part tos.old b count)) h }
    requires bounds { (b + count ≤ length froms.old) × (b + count ≤ length tos.old) × (h ≤ 512) × (h ≤ length order.old) }
    ensures stay { (froms.new ≡ froms.old) × (tos.new ≡ tos.old) × (last.new.weights ≡ last.old.weights) }
    ensures linked { Linked (leave (joining (part froms.old b count) (part tos.old b count))) (length (part froms.old b count)) last.new.links.now.head last.new.links.now.next }
    ensures ordered { order.new ≡ over (order_of (joining (part froms.old b count) (part tos.old b count)) h) order.old }
    ensures levels { length (order_of (joining (part froms.old b count) (part tos.old b count)) h) ≡ h → last.new.levels.now ≡ over (levels_of (joining (part froms.old b count) (part tos.old b count)) h) (zeros 512) }
    ensures same_links { last.new.links.ghost_name ≡ last.old.links.ghost_name }
{
    let e = b + count;
    let edges = EdgeLists {
        starts: &froms[b..e],
        ends: &tos[b..e],
    };
    graph::link_leaving(edges, last.links);
    let links = EdgeLinks {
        edges,
        table: last.links,
    };
    ordering::order_by(links, h, order, last.levels);
}

// The lists, the costs, the order, the links and the levels of row r + 1 after those of row r, whose clusters get new numbers.
fn hand_on(
    names: Renaming<'_>,
    n: usize,
    m: usize,
    r: usize,
    store: &mut RowStore<'_>,
    last: &mut Last<'_>,
)
    requires names_few { names.after ≤ n }
    requires hands_on { HandsOn n m r names.before store.old.froms.now store.old.tos.now store.old.wides.now store.old.sizes store.old.orders.now last.old.weights }
    ensures handed_on { HandedOn names.entry.map.now n m r names.entry.before names.entry.after store.old.froms.now store.old.tos.now store.old.wides.now store.old.sizes store.old.orders.now last.old.weights store.new.froms.now store.new.tos.now store.new.wides.now store.new.sizes store.new.orders.now last.new.weights last.new.levels.now }
    ensures linked_at { LinkedAt m (r + 1) store.new.froms.now store.new.tos.now store.new.sizes last.new.links.now.head last.new.links.now.next }
    ensures same_links { last.new.links.ghost_name ≡ last.old.links.ghost_name }
{
    let size = usize::from(store.sizes[r]);
    let a = r * m;
    let b = a + m;
    let count = row_lists::carry(names, a, size, b, store);
    store.sizes[r + 1] = count as u16;
    row_lists::merge(names, &mut last.weights);
    let c = r * n + n;
    order_row(
        store.froms,
        store.tos,
        b,
        count,
        names.after,
        &mut store.orders[c..c + n],
        last,
    );
}

// A round on row r; where it is kept, what is carried of row r + 1 stands after what is carried of row r.
// Answers how many clusters row r + 1 has.
fn step(
    plan: Plan<'_>,
    rows: &mut [u16],
    store: &mut RowStore<'_>,
    last: &mut Last<'_>,
    r: usize,
    g: usize,
) -> Option<usize>
    requires round_ready { RoundReady (graph_in plan.problem.lists) (rows_in rows.old (length plan.problem.lists.costs.now) r) g × Layer (graph_in plan.problem.lists) (rows_in rows.old (length plan.problem.lists.costs.now) r) }
    requires carrying { Carrying (graph_in plan.problem.lists) rows.old r g store.old.froms.now store.old.tos.now store.old.wides.now store.old.sizes store.old.orders.now last.old.weights }
    requires rows_room { RowsRoom (graph_in plan.problem.lists) rows.old store.old.froms.now store.old.tos.now store.old.wides.now store.old.sizes store.old.orders.now }
    requires r_bound { (r < 8) × (g ≤ length plan.problem.lists.costs.now) × LinkedAt (length plan.problem.lists.starts.now) r store.old.froms.now store.old.tos.now store.old.sizes last.old.links.now.head last.old.links.now.next × LevelsAt (length plan.problem.lists.starts.now) r g store.old.froms.now store.old.tos.now store.old.sizes last.old.levels.now }
    ensures steps { Steps (graph_in plan.entry.problem.lists) plan.entry.problem.k plan.entry.problem.bound r rows.old rows.new store.new.froms.now store.new.tos.now store.new.wides.now store.new.sizes store.new.orders.now last.new.weights last.new.links.now.head last.new.links.now.next last.new.levels.now result }
    ensures rows_room_2 { RowsRoom (graph_in plan.entry.problem.lists) rows.new store.new.froms.now store.new.tos.now store.new.wides.now store.new.sizes store.new.orders.now }
    ensures same_links { last.new.links.ghost_name ≡ last.old.links.ghost_name }
{
    let mut map = [0; 512];
    let h = join_at(plan, store.view(), last, &mut map, rows, r, g)?;
    let names = Renaming {
        map: &map,
        before: g,
        after: h,
    };
    hand_on(
        names,
        plan.problem.lists.costs.len(),
        plan.problem.lists.starts.len(),
        r,
        store,
        last,
    );
    Some(h)
}

// The rounds above row 0, which stands in front, with what is carried of it. Answers how many were kept; the links are those of the last row.
fn join_rows(
    plan: Plan<'_>,
    rows: &mut [u16],
    store: &mut RowStore<'_>,
    last: &mut Last<'_>,
) -> usize
    requires buildable { Buildable (graph_in plan.problem.lists) plan.problem.k }
    requires rows_room { RowsRoom (graph_in plan.problem.lists) rows.old store.old.froms.now store.old.tos.now store.old.wides.now store.old.sizes store.old.orders.now }
    requires costs_value { rows_in rows.old (length plan.problem.lists.costs.now) 0 ≡ identity (length plan.problem.lists.costs.now) }
    requires carrying { Carrying (graph_in plan.problem.lists) rows.old 0 (length plan.problem.lists.costs.now) store.old.froms.now store.old.tos.now store.old.wides.now store.old.sizes store.old.orders.now last.old.weights }
    requires linked_at { LinkedAt (length plan.problem.lists.starts.now) 0 store.old.froms.now store.old.tos.now store.old.sizes last.old.links.now.head last.old.links.now.next × LevelsAt (length plan.problem.lists.starts.now) 0 (length plan.problem.lists.costs.now) store.old.froms.now store.old.tos.now store.old.sizes last.old.levels.now }
    ensures built { Built (graph_in plan.entry.problem.lists) plan.entry.problem.k plan.entry.problem.bound rows.old rows.new result }
    ensures carried_2 { Carried (graph_in plan.entry.problem.lists) (rows_in rows.new (length plan.entry.problem.lists.costs.now)) result store.new.froms.now store.new.tos.now store.new.wides.now store.new.sizes store.new.orders.now }
    ensures linked_at_2 { LinkedAt (length plan.entry.problem.lists.starts.now) result store.new.froms.now store.new.tos.now store.new.sizes last.new.links.now.head last.new.links.now.next }
    ensures same_links { last.new.links.ghost_name ≡ last.old.links.ghost_name }
{
    let mut g = plan.problem.lists.costs.len();
    for r in 0..8 {
        let Some(h) = step(plan, rows, store, last, r, g) else {
            return r;
        };
        g = h;
    }
    8
}

// Builds the hierarchy, by the order of the vertices, their levels and the links of their edges: rows 0 to the rounds kept, whose number it answers, with the lists and
// the order of each, and the links of the last. Entries past those rows are left alone.
pub fn build<'x>(
    problem: Problem<'_>,
    order: &[u16; 512],
    levels: &'x mut [u16; 512],
    links: &'x mut LinkTable,
    rows: &mut [u16],
    store: &mut RowStore<'_>,
) -> usize
    requires buildable { Buildable (graph_in problem.lists) problem.k }
    requires rows_room { RowsRoom (graph_in problem.lists) rows.old store.old.froms.now store.old.tos.now store.old.wides.now store.old.sizes store.old.orders.now }
    requires order_value { take (length problem.lists.costs.now) order.now ≡ order_of (arcs (identity (length problem.lists.costs.now)) problem.lists.starts.now problem.lists.ends.now) (length problem.lists.costs.now) }
    requires linked { Linked (leave (joining problem.lists.starts.now problem.lists.ends.now)) (length problem.lists.starts.now) links.old.head links.old.next }
    requires levels_value { levels.old ≡ over (levels_of (arcs (identity (length problem.lists.costs.now)) problem.lists.starts.now problem.lists.ends.now) (length problem.lists.costs.now)) (zeros 512) }
    ensures built { Built (graph_in problem.entry.lists) problem.entry.k problem.entry.bound rows.old rows.new result }
    ensures carried { Carried (graph_in problem.entry.lists) (rows_in rows.new (length problem.entry.lists.costs.now)) result store.new.froms.now store.new.tos.now store.new.wides.now store.new.sizes store.new.orders.now }
    ensures linked_at { LinkedAt (length problem.entry.lists.starts.now) result store.new.froms.now store.new.tos.now store.new.sizes links.new.head links.new.next }
{
    let lists = problem.lists;
    let n = lists.costs.len();
    graph::number_entries(&mut rows[0..n]);
    row_lists::copy(&order[..n], store.orders, 0);
    row_lists::first(lists, store);
    let mut last = Last {
        links,
        levels,
        weights: [0; 512],
    };
    row_lists::weigh(lists.costs, &mut last.weights);
    let plan = Plan { problem };
    join_rows(plan, rows, store, &mut last)
}
