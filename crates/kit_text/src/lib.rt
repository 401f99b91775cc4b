#![tactic(auto)]

ghost use Rattle.std.specs.Prelude.{◌≡◌, ◌≤◌, length};
ghost use Rattle.folds.specs.Fold.{over};
ghost use Rattle.line_forms.specs.Lines.{Ran, column};
ghost use Rattle.kit_lines.specs.Scan.{of_kind, most_of, blocks_at, wires_at, laid_out, IsFine, Scanned};
ghost use Rattle.kit_text.specs.Reading.{lists, roomed, reading_of, written, figures, outcome};

use kit_lines::{Kind, Layout};
use line_forms::Run;
use validity::{Cause, Refusal};

// The reader of kit text (document 01, "Kit text").

// What reading a text answers: the numbers of blocks and wires, the stage count and the limit.
#[derive(Clone, Copy)]
pub struct Figures {
    pub blocks: usize,
    pub wires: usize,
    pub stages: u32,
    pub limit: u32,
}

// The reader of kit text: the text that the caller lends, and how far it has been read.
#[derive(Clone, Copy)]
pub struct KitReader<'a> {
    pub text: &'a [u8],
    pub at: usize,
}

impl<'a> KitReader<'a> {
    pub fn open(text: &'a [u8]) -> KitReader<'a>
        ensures { (result.text ≡ text.entry) × (result.at ≡ 0) }
    {
        KitReader { text, at: 0 }
    }

    // The lines of one kind that come next: how many, and how far they go.
    pub fn lines(self, kind: Kind) -> Run
        ensures { Ran (of_kind kind) self.entry.text.now (most_of kind) self.entry.at result.count result.next }
    {
        kit_lines::lines_of(self.text, self.at, kind)
    }

    // The reader past those lines.
    pub fn past(self, run: Run) -> KitReader<'a>
        ensures { (result.text ≡ self.entry.text) × (result.at ≡ run.next) }
    {
        KitReader {
            text: self.text,
            at: run.next,
        }
    }
}

// Checks 15 and 16: the reader goes past the kit line, the block lines and the wire lines, and what it met is judged.
pub fn check_text(text: &[u8]) -> Result<Layout, Refusal>
    ensures { Scanned text.now result }
{
    let r = KitReader::open(text);
    let head = r.lines(Kind::Kit);
    let s = r.past(head);
    let blocks = s.lines(Kind::Block);
    let t = s.past(blocks);
    let wires = t.lines(Kind::Wire);
    kit_lines::judged(text, head, blocks, wires)
}

fn write_costs(text: &[u8], at: usize, costs: &mut [u16])
    requires { length (blocks_at text.now at) ≤ length costs.old }
    ensures { costs.new ≡ over (column 0 (blocks_at text.now at)) costs.old }
{
    line_forms::write_entries(costs, at, 512, |_, i| {
        let line = kit_lines::block_line(text, i)?;
        Some((line.0[0], line.1))
    });
}

// stays: a loop of its own, for three lists of one reading; `write_entries` would read each line three times.
// stays: text and place apart, here and above: they are a `Layout`'s, and a `KitReader` of both would be made to be taken apart.
fn write_wires(text: &[u8], at: usize, starts: &mut [u16], ends: &mut [u16], widths: &mut [u16])
    requires { (length (wires_at text.now at) ≤ length starts.old) × (length (wires_at text.now at) ≤ length ends.old) × (length (wires_at text.now at) ≤ length widths.old) }
    ensures starts_after { starts.new ≡ over (column 0 (wires_at text.now at)) starts.old }
    ensures ends_after { ends.new ≡ over (column 1 (wires_at text.now at)) ends.old }
    ensures widths_after { widths.new ≡ over (column 2 (wires_at text.now at)) widths.old }
{
    let mut i = at;
    for n in 0..1024 {
        let Some(line) = kit_lines::wire_line(text, i) else {
            return;
        };
        starts[n] = line.0[0] as u16;
        ends[n] = line.0[1] as u16;
        widths[n] = line.0[2] as u16;
        i = line.1;
    }
}

// Check 4, and the pass that writes.
fn load(
    text: &[u8],
    y: Layout,
    costs: &mut [u16],
    starts: &mut [u16],
    ends: &mut [u16],
    widths: &mut [u16],
) -> Result<Figures, Refusal>
    requires { IsFine text.now y }
    ensures result_value { outcome result ≡ figures (roomed (lists costs.old starts.old ends.old widths.old) (laid_out text.now y)) }
    ensures widths_after { lists costs.new starts.new ends.new widths.new ≡ written (roomed (lists costs.old starts.old ends.old widths.old) (laid_out text.now y)) (lists costs.old starts.old ends.old widths.old) }
{
    let n = y.blocks;
    let m = y.wires;
    if costs.len() < n || starts.len() < m || ends.len() < m || widths.len() < m {
        return Err(Cause::Room.at(0));
    }
    write_costs(text, y.first_block, costs);
    write_wires(text, y.first_wire, starts, ends, widths);
    Ok(Figures {
        blocks: n,
        wires: m,
        stages: y.stages,
        limit: y.limit,
    })
}

// Reads a kit text into four lists, or refuses it and leaves them alone. Checks 14, 15, 16, then 4.
// stays: four lists to write beside each other, here and in `load`, as C lends them; a type of them would be made to be taken apart.
pub fn read_kit(
    text: &[u8],
    costs: &mut [u16],
    starts: &mut [u16],
    ends: &mut [u16],
    widths: &mut [u16],
) -> Result<Figures, Refusal>
    ensures result_value { outcome result ≡ figures (reading_of text.now (lists costs.old starts.old ends.old widths.old)) }
    ensures widths_after { lists costs.new starts.new ends.new widths.new ≡ written (reading_of text.now (lists costs.old starts.old ends.old widths.old)) (lists costs.old starts.old ends.old widths.old) }
{
    if text.len() > 65536 {
        return Err(Cause::Length.at(0));
    }
    let y = check_text(text)?;
    load(text, y, costs, starts, ends, widths)
}
