// The public call that inspects a table, and checks 10 to 13 below it.
#![tactic(auto)]

ghost use Rattle.std.specs.Prelude.{◌≡◌, ◌≤◌, length, get_or, eqb, ltb, leb, ◌&&◌};
ghost use Rattle.folds.specs.Fold.{first_to, if_below, Filled};
ghost use Rattle.graph.specs.Graph.{via, arcs, Inside};
ghost use Rattle.graph.specs.Lent.{graph_in, arcs_in};
ghost use Rattle.graph.specs.Links.{Ends, Joins};
ghost use Rattle.topology.specs.Reach.{lowest_on_cycle};
ghost use Rattle.validity.specs.Cause.{Passed};
ghost use Rattle.validity.specs.Check.{refuse_at};
ghost use Rattle.validity.specs.declared.Cause.TheVariants.{PartCycle};
ghost use Rattle.inspection.specs.Table.{bad_entry, cycles_from, table_of};
ghost use Rattle.inspection.specs.Inspect.{answer_of, inspect_of, order_for, order_after};
ghost use Rattle.inspection.specs.Promises.{TableReady, Judged};

use graph::{EdgeLinks, EdgeLists, LinkTable, Lists, Problem};
use validity::{Cause, Refusal};

// Check 10: the lowest vertex whose entry is k or more.
fn bad_entry(parts: &[u16], k: usize) -> Option<usize>
    ensures { result ≡ if_below (length parts.now) (first_to (length parts.now) (bad_entry k parts.now)) }
{
    parts.iter().position(|part| k <= usize::from(*part))
}

// Check 11: the lowest part with no cost. Costs are above 0, so such a part is empty.
fn empty_part(sums: &[u32]) -> Option<usize>
    ensures { result ≡ if_below (length sums.now) (first_to (length sums.now) (λ u. eqb (get_or sums.now u 0) 0)) }
{
    sums.iter().position(|sum| *sum == 0)
}

// Check 12: the lowest part over the bound.
fn over_part(sums: &[u32], bound: u32) -> Option<usize>
    ensures { result ≡ if_below (length sums.now) (first_to (length sums.now) (λ u. ltb bound (get_or sums.now u 0))) }
{
    sums.iter().position(|sum| *sum > bound)
}

// Writes the part at each edge's end to the front of out.
fn part_ends(parts: &[u16], ends: &[u16], out: &mut [u16; 1024])
    requires { Ends parts.now ends.now }
    ensures { Filled out.old out.new (length ends.now) (via parts.now ends.now) }
{
    for j in 0..ends.len() {
        out[j] = graph::cluster(parts, ends, j) as u16;
    }
}

// Check 13: refuses the lowest of k parts on a cycle, or leaves their start order in the front of `order`.
// stays: `Inside` is a clause: the type that has it in `ordering` has links too, which are not filled yet.
fn order_parts(edges: EdgeLists<'_>, k: usize, order: &mut [u16]) -> Result<(), Refusal>
    requires inside { Inside (arcs_in edges) k }
    requires k_bound { (k ≤ 16) × (k ≤ length order.old) }
    ensures value { result ≡ refuse_at PartCycle (lowest_on_cycle (arcs_in edges.entry) k) k Passed }
    ensures order_after { order.new ≡ order_for result (arcs_in edges.entry) k order.old }
{
    let mut taken = [0u16; 512];
    let mut levels = [0u16; 512];
    let mut links = LinkTable {
        head: [0; 513],
        next: [0; 1024],
    };
    let u = ordering::lowest_on_cycle(edges, k, &mut taken, &mut levels, &mut links);
    Cause::PartCycle.refuse_at(u)?;
    let linked = EdgeLinks {
        edges,
        table: &links,
    };
    ordering::order_by(linked, k, order, &mut levels);
    Ok(())
}

// Check 13, on the edges between parts; where it passes too, the start order and the cut.
// stays: `Joins` is a clause: it speaks of a table and of lists, and a type of both would be built for one call.
fn finish(lists: Lists<'_>, parts: &[u16], k: usize, order: &mut [u16]) -> Result<u32, Refusal>
    requires joins { Joins parts.now lists.starts.now lists.ends.now }
    requires inside { Inside (arcs parts.now lists.starts.now lists.ends.now) k }
    requires widths_len { length lists.widths.now ≡ length lists.starts.now }
    requires k_bound { (k ≤ 16) × (k ≤ length order.old) }
    ensures { Judged (cycles_from lists.entry.starts.now lists.entry.ends.now k parts.now) (arcs parts.now lists.entry.starts.now lists.entry.ends.now)
        lists.entry.widths.now k order.old order.new result }
{
    let mut from = [0u16; 1024];
    let mut to = [0u16; 1024];
    part_ends(parts, lists.starts, &mut from);
    part_ends(parts, lists.ends, &mut to);
    let m = lists.starts.len();
    let edges = EdgeLists {
        starts: &from[..m],
        ends: &to[..m],
    };
    order_parts(edges, k, order)?;
    Ok(graph::cut_of(parts, lists.starts, lists.ends, lists.widths))
}

// Checks 10 to 12, and what follows them.
fn check_table(problem: Problem<'_>, parts: &[u16], order: &mut [u16]) -> Result<u32, Refusal>
    requires { TableReady (graph_in problem.lists) problem.k parts.now order.old }
    ensures { Judged (table_of (graph_in problem.entry.lists) problem.entry.k problem.entry.bound parts.now) (arcs parts.now problem.entry.lists.starts.now problem.entry.lists.ends.now)
        problem.entry.lists.widths.now problem.entry.k order.old order.new result }
{
    let Problem { lists, k, bound } = problem;
    Cause::Entry.refuse_at(bad_entry(parts, k))?;
    let mut sums = [0u32; 16];
    graph::sum_costs(parts, lists.costs, &mut sums);
    let sums = &sums[..k];
    Cause::Empty.refuse_at(empty_part(sums))?;
    // stays: a `match`, so that the place is a value here, which must-fail/place_off changes alone.
    match over_part(sums, bound) {
        Some(over) => return Err(Cause::Over.at(over)),
        None => (),
    }
    finish(lists, parts, k, order)
}

fn enough(table: usize, n: usize, order: usize, k: usize) -> bool
    ensures { result ≡ (leb n table && leb k order) }
{
    n <= table && k <= order
}

// Document 01, inspection: checks 1 to 8, then 10 to 13; where all pass, the start order and the cut.
pub fn inspect(problem: Problem<'_>, table: &[u16], order: &mut [u16]) -> Result<u32, Refusal>
    ensures result_value { answer_of result ≡ inspect_of (graph_in problem.entry.lists) problem.entry.k problem.entry.bound table.now order.old }
    ensures order_after { order.new ≡ order_after (graph_in problem.entry.lists) problem.entry.k problem.entry.bound table.now order.old }
{
    let n = problem.lists.costs.len();
    let room = enough(table.len(), n, order.len(), problem.k);
    validity::check_bare(512, problem, room).verdict?;
    check_table(problem, &table[..n], order)
}
