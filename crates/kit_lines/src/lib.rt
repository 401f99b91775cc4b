#![tactic(auto)]

ghost use Rattle.std.specs.Prelude.{◌≡◌};
ghost use Rattle.line_forms.specs.Lines.{Ran, of_form};
ghost use Rattle.line_forms.specs.Read.{read_form};
ghost use Rattle.line_forms.specs.Lent.{fields_in};
ghost use Rattle.kit_lines.specs.Forms.{kit_form, block_form, wire_form};
ghost use Rattle.kit_lines.specs.Scan.{kind_of, of_kind, most_of, Passed, Scanned};

use decimal::Field;
use line_forms::{Run, run_of};
use validity::{Cause, Refusal};

// The lines of a kit text (document 01, "Kit text"), and the checks 15 and 16 over them.

// A text that is known to be good: its figures, and where its block lines and its wire lines begin.
#[derive(Clone, Copy)]
pub struct Layout {
    pub stages: u32,
    pub limit: u32,
    pub blocks: usize,
    pub wires: usize,
    pub first_block: usize,
    pub first_wire: usize,
}

// The kinds of lines.
#[derive(Clone, Copy)]
pub enum Kind {
    Kit,
    Block,
    Wire,
}

// The kind of lines whose word begins with a letter: k, b, or any other for w.
impl From<u8> for Kind {
    ghost from_gives = { λ letter kind. kind ≡ kind_of letter };

    // stays: a `match` on a byte: this is where one becomes a kind.
    fn from(letter: u8) -> Kind
        ensures { result ≡ kind_of letter }
    {
        match letter {
            b'k' => Kind::Kit,
            b'b' => Kind::Block,
            _ => Kind::Wire,
        }
    }
}

// The words of each line with what may stand after them; the end is the same of all.
pub fn kit_fields() -> [Field<'static>; 3]
    ensures { fields_in result ≡ kit_form.fields }
{
    [
        Field::new(b"(kit (blocks ", 65535),
        Field::new(b") (stages ", 65535),
        Field::new(b") (limit ", 99_999_999),
    ]
}

pub fn block_fields() -> [Field<'static>; 1]
    ensures { fields_in result ≡ block_form.fields }
{
    [Field::new(b"(block (cost ", 65535)]
}

pub fn wire_fields() -> [Field<'static>; 3]
    ensures { fields_in result ≡ wire_form.fields }
{
    [
        Field::new(b"(wire (from ", 65535),
        Field::new(b") (to ", 65535),
        Field::new(b") (width ", 65535),
    ]
}

// The lines' forms, a function for each kind: the numbers of a line that has the form, and the place past it.
// stays: the place goes beside the text, here and below, as in `decimal`.
pub fn kit_line(text: &[u8], at: usize) -> Option<([u32; 3], usize)>
    ensures { result ≡ read_form kit_form text.now at }
{
    line_forms::read(text, at, &kit_fields(), b"))\n")
}

pub fn block_line(text: &[u8], at: usize) -> Option<([u32; 1], usize)>
    ensures { result ≡ read_form block_form text.now at }
{
    line_forms::read(text, at, &block_fields(), b"))\n")
}

pub fn wire_line(text: &[u8], at: usize) -> Option<([u32; 3], usize)>
    ensures { result ≡ read_form wire_form text.now at }
{
    line_forms::read(text, at, &wire_fields(), b"))\n")
}

// The lines of one kind from a place on: one kit line, 512 block lines or 1,024 wire lines at most.
pub fn lines_of(text: &[u8], at: usize, kind: Kind) -> Run
    ensures { Ran (of_kind kind) text.now (most_of kind) at result.count result.next }
{
    match kind {
        Kind::Kit => run_of(at, 1, |_, i| Some(kit_line(text, i)?.1)),
        Kind::Block => run_of(at, 512, |_, i| Some(block_line(text, i)?.1)),
        Kind::Wire => run_of(at, 1024, |_, i| Some(wire_line(text, i)?.1)),
    }
}

// The block lines from a place on, at most 512.
pub fn block_lines(text: &[u8], at: usize) -> Run
    ensures { Ran (of_form block_form) text.now 512 at result.count result.next }
{
    lines_of(text, at, Kind::Block)
}

// The checks of the lines, 15 and then 16, of a text whose kit line, block lines and wire lines have been passed.
pub fn judged(text: &[u8], head: Run, blocks: Run, wires: Run) -> Result<Layout, Refusal>
    requires { Passed text.now head.next blocks.count blocks.next wires.count wires.next }
    ensures { Scanned text.now result }
{
    let Some(line) = kit_line(text, 0) else {
        return Err(Cause::Line.at(1));
    };
    let n = blocks.count;
    let m = wires.count;
    let e = wires.next;
    if e < text.len() {
        return Err(Cause::Line.at(n + m + 2));
    }
    if n != line.0[0] as usize {
        return Err(Cause::Lines.at(0));
    }
    Ok(Layout {
        stages: line.0[1],
        limit: line.0[2],
        blocks: n,
        wires: m,
        first_block: head.next,
        first_wire: blocks.next,
    })
}
