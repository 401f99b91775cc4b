// The public split: checks, then the three phases of the paper.
#![tactic(auto)]

ghost use Rattle.std.specs.Prelude.{◌≡◌, ◌*◌, ◌≤◌, length, leb, ◌&&◌};
ghost use Rattle.graph.specs.Lent.{graph_in};
ghost use Rattle.validity.specs.Check.{most_vertices};
ghost use Rattle.partition.specs.Split.{answer_of, split_of, table_after, rows_left};
ghost use Rattle.partition.specs.Promises.{Ready, Works};

use graph::{LinkTable, Problem, RowStore};
use validity::{Cause, Refusal};

// What a split tells: the cut, the rounds kept, the rung that was cut and the moves that lowered the cut.
#[derive(Clone, Copy)]
pub struct Summary {
    pub cut: u32,
    pub rounds: usize,
    pub rung: usize,
    pub moves: usize,
}

// Whether the caller lends enough: an entry of the table for each vertex, and nine rows.
fn enough(n: usize, table: usize, rows: usize) -> bool
    ensures { result ≡ (leb n table && leb (9 * n) rows) }
{
    n <= table && n <= rows / 9
}

// The three phases of the paper: coarsen, initial partition, refine. The local arrays hold the joined edges and the orders of nine rows.
fn phases<const M: usize>(
    problem: Problem<'_>,
    order: &[u16; 512],
    levels: &mut [u16; 512],
    links: &mut LinkTable,
    table: &mut [u16],
    rows: &mut [u16],
) -> Option<Summary>
    requires ready { Ready (graph_in problem.lists) problem.k problem.bound order.now levels.old links.old.head links.old.next table.old rows.old }
    requires held { (9 * length problem.lists.starts.now ≤ M) × (M ≤ 9216) }
    ensures { Works (graph_in problem.entry.lists) problem.entry.k problem.entry.bound table.old rows.old table.new rows.new result }
{
    let mut froms = [0; M];
    let mut tos = [0; M];
    let mut wides = [0; M];
    let mut orders = [0; 4608];
    let mut store = RowStore {
        froms: &mut froms,
        tos: &mut tos,
        wides: &mut wides,
        sizes: [0; 9],
        orders: &mut orders,
    };
    let rounds = hierarchy::build(problem, order, levels, links, rows, &mut store);
    let view = store.view();
    let first = initial::choose(problem, rows, view, links, rounds, table)?;
    let last = refine::refine(problem, rows, view, links, first.row, first.cut, table);
    Some(Summary {
        cut: last.cut,
        rounds,
        rung: first.row,
        moves: last.moves,
    })
}

// The phases, on arrays of the call's size: few edges, less to clear.
// stays: an `if` for the size, as in `division_table::fill_fixed`.
fn partition(
    problem: Problem<'_>,
    order: &[u16; 512],
    levels: &mut [u16; 512],
    links: &mut LinkTable,
    table: &mut [u16],
    rows: &mut [u16],
) -> Option<Summary>
    requires { Ready (graph_in problem.lists) problem.k problem.bound order.now levels.old links.old.head links.old.next table.old rows.old }
    ensures { Works (graph_in problem.entry.lists) problem.entry.k problem.entry.bound table.old rows.old table.new rows.new result }
{
    if problem.lists.starts.len() <= 128 {
        return phases::<1152>(problem, order, levels, links, table, rows);
    }
    phases::<9216>(problem, order, levels, links, table, rows)
}

// Checks 1 to 8 with at most `most` vertices, then the phases; 9 where no rung can be cut.
fn split_within(
    most: usize,
    problem: Problem<'_>,
    table: &mut [u16],
    rows: &mut [u16],
) -> Result<Summary, Refusal>
    requires { most ≤ 512 }
    ensures result_value { answer_of result ≡ split_of most (graph_in problem.entry.lists) problem.entry.k problem.entry.bound table.old rows.old }
    ensures table_after { table.new ≡ table_after most (graph_in problem.entry.lists) problem.entry.k problem.entry.bound table.old rows.old }
    ensures rows_after { rows.new ≡ rows_left most (graph_in problem.entry.lists) problem.entry.k problem.entry.bound table.old rows.old }
{
    let room = enough(problem.lists.costs.len(), table.len(), rows.len());
    let mut order = [0; 512];
    let mut levels = [0; 512];
    let mut links = LinkTable {
        head: [0; 513],
        next: [0; 1024],
    };
    let checked = validity::check(most, problem, room, &mut order, &mut levels, &mut links);
    // stays: a `match` for `?`, so that the place is a value here, which must-fail/place_lost changes alone.
    match checked.verdict {
        Ok(()) => (),
        Err(refusal) => return Err(refusal.cause.at(refusal.place)),
    }
    let inner = partition(problem, &order, &mut levels, &mut links, table, rows);
    inner.ok_or(Cause::Uncut.at(0))
}

// Document 01, the split.
pub fn split(problem: Problem<'_>, table: &mut [u16], rows: &mut [u16]) -> Result<Summary, Refusal>
    ensures result_value { answer_of result ≡ split_of most_vertices (graph_in problem.entry.lists) problem.entry.k problem.entry.bound table.old rows.old }
    ensures table_after { table.new ≡ table_after most_vertices (graph_in problem.entry.lists) problem.entry.k problem.entry.bound table.old rows.old }
    ensures rows_after { rows.new ≡ rows_left most_vertices (graph_in problem.entry.lists) problem.entry.k problem.entry.bound table.old rows.old }
{
    split_within(512, problem, table, rows)
}
