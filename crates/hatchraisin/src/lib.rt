// The public calls for callers in C and Rust: numbers, slices, and cells for the answer.
#![tactic(auto)]

ghost use Rattle.std.specs.Prelude.{◌≡◌, ◌<◌, [], ◌∷◌};
ghost use Rattle.graph.specs.Graph.{graph_of};
ghost use Rattle.graph.specs.Lent.{graph_in};
ghost use Rattle.validity.specs.Check.{most_vertices};
ghost use Rattle.validity.specs.Drawn as drawn;
ghost use Rattle.partition.specs.Split as split;
ghost use Rattle.inspection.specs.Inspect as inspect;
ghost use Rattle.kit_text.specs.Reading.{lists, reading_of, written, figures, outcome};
ghost use Rattle.hatchraisin.specs.Told.{cells, answer_in};

use graph::{Lists, Problem};
use kit_text::Figures;
use partition::Summary;
use validity::{Checked, Refusal};

// A kit with its stage count and its limit, as one value.
fn kit<'x>(
    costs: &'x [u16],
    starts: &'x [u16],
    ends: &'x [u16],
    widths: &'x [u16],
    k: usize,
    bound: u32,
) -> Problem<'x>
    ensures lists { graph_in result.lists ≡ graph_of costs.now starts.now ends.now widths.now }
    ensures asked { (result.k ≡ k) × (result.bound ≡ bound) }
{
    let lists = Lists {
        costs,
        starts,
        ends,
        widths,
    };
    Problem { lists, k, bound }
}

// A call's values into the cells, or the place of its refusal and 0; its number.
// stays: 0 or a refusal's number, and the place in a cell: C's interface, here and in the calls below.
fn tell<const N: usize>(told: Result<[usize; N], Refusal>, answer: &mut [usize; N]) -> u32
    requires { 0 < N }
    ensures value { result ≡ (answer_in told.entry).number }
    ensures answer_after { answer.new ≡ cells N (answer_in told.entry) }
{
    match told {
        Ok(values) => {
            *answer = values;
            0
        }
        Err(refusal) => {
            answer.fill(0);
            answer[0] = refusal.place;
            refusal.cause.number()
        }
    }
}

// The place and the count of a check into the cells; its number.
// stays: beside `tell`: a count goes with a refusal too, and must-fail/count_as_place changes a value alone.
#[tactic(auto, unfolding(crate::specs::Told::cells, folds::specs::Fold::over))]
fn tell_check(told: Checked, answer: &mut [usize; 2]) -> u32
    ensures value { result ≡ (drawn.answer_of told).number }
    ensures answer_after { answer.new ≡ cells 2 (drawn.answer_of told) }
{
    match told.verdict {
        Ok(()) => {
            *answer = [0, told.tried];
            0
        }
        Err(refusal) => {
            *answer = [refusal.place, told.tried];
            refusal.cause.number()
        }
    }
}

// Document 01, the split. Answers the cut, the rounds kept, the rung that was cut and the moves that lowered the cut; or the place.
// stays: nine parameters, as C hands them.
#[unsafe(no_mangle)]
pub extern "C" fn hatch_split<'x>(
    costs: &'x [u16],
    starts: &'x [u16],
    ends: &'x [u16],
    widths: &'x [u16],
    k: usize,
    bound: u32,
    table: &mut [u16],
    ladder: &mut [u16],
    answer: &mut [usize; 4],
) -> u32
    ensures value { result ≡ (split.split_of most_vertices (graph_of costs.now starts.now ends.now widths.now) k bound table.old ladder.old).number }
    ensures answer_after { answer.new ≡ cells 4 (split.split_of most_vertices (graph_of costs.now starts.now ends.now widths.now) k bound table.old ladder.old) }
    ensures table_after { table.new ≡ split.table_after most_vertices (graph_of costs.now starts.now ends.now widths.now) k bound table.old ladder.old }
    ensures ladder_after { ladder.new ≡ split.rows_left most_vertices (graph_of costs.now starts.now ends.now widths.now) k bound table.old ladder.old }
{
    let told = partition::split(kit(costs, starts, ends, widths, k, bound), table, ladder);
    let figures = |s: Summary| -> [usize; 4]
        ensures { result ≡ split.figures s }
    { [s.cut as usize, s.rounds, s.rung, s.moves] };
    tell(told.map(figures), answer)
}

// Document 01, inspection. Answers the cut, or the place.
// stays: nine parameters, as C hands them.
#[unsafe(no_mangle)]
pub extern "C" fn hatch_inspect<'x>(
    costs: &'x [u16],
    starts: &'x [u16],
    ends: &'x [u16],
    widths: &'x [u16],
    k: usize,
    bound: u32,
    table: &[u16],
    order: &mut [u16],
    answer: &mut [usize; 1],
) -> u32
    ensures value { result ≡ (inspect.inspect_of (graph_of costs.now starts.now ends.now widths.now) k bound table.now order.old).number }
    ensures answer_after { answer.new ≡ cells 1 (inspect.inspect_of (graph_of costs.now starts.now ends.now widths.now) k bound table.now order.old) }
    ensures order_after { order.new ≡ inspect.order_after (graph_of costs.now starts.now ends.now widths.now) k bound table.now order.old }
{
    let told = inspection::inspect(kit(costs, starts, ends, widths, k, bound), table, order);
    let cell = |cut: u32| -> [usize; 1]
        ensures { result ≡ cut ∷ [] }
    { [cut as usize] };
    tell(told.map(cell), answer)
}

// Document 02, b: the check of a kit that is being drawn. Answers the place, 0 where there is none, and how many wires the search for a repeated one tried.
// stays: a kit in six parameters, and a place of 0 for none, as C hands and reads them.
#[unsafe(no_mangle)]
pub extern "C" fn hatch_check<'x>(
    costs: &'x [u16],
    starts: &'x [u16],
    ends: &'x [u16],
    widths: &'x [u16],
    k: usize,
    bound: u32,
    answer: &mut [usize; 2],
) -> u32
    ensures value { result ≡ (drawn.answer_of (drawn.check_of (graph_of costs.now starts.now ends.now widths.now) k bound)).number }
    ensures answer_after { answer.new ≡ cells 2 (drawn.answer_of (drawn.check_of (graph_of costs.now starts.now ends.now widths.now) k bound)) }
{
    let checked = validity::check_kit(kit(costs, starts, ends, widths, k, bound));
    tell_check(checked, answer)
}

// Document 01, the kit text. Answers the blocks, the wires, the stage count and the limit; or the place.
// stays: four lists to write beside each other, as C lends them.
#[unsafe(no_mangle)]
pub extern "C" fn hatch_read(
    text: &[u8],
    costs: &mut [u16],
    starts: &mut [u16],
    ends: &mut [u16],
    widths: &mut [u16],
    answer: &mut [usize; 4],
) -> u32
    ensures value { result ≡ (figures (reading_of text.now (lists costs.old starts.old ends.old widths.old))).number }
    ensures answer_after { answer.new ≡ cells 4 (figures (reading_of text.now (lists costs.old starts.old ends.old widths.old))) }
    ensures widths_after { lists costs.new starts.new ends.new widths.new ≡ written (reading_of text.now (lists costs.old starts.old ends.old widths.old)) (lists costs.old starts.old ends.old widths.old) }
{
    let told = kit_text::read_kit(text, costs, starts, ends, widths);
    let numbers = |f: Figures| -> [usize; 4]
        ensures { result ≡ f.blocks ∷ f.wires ∷ f.stages ∷ f.limit ∷ [] }
    { [f.blocks, f.wires, f.stages as usize, f.limit as usize] };
    tell(told.map(numbers), answer)
}
