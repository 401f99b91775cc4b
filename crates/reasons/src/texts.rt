// Why a kit text is refused, or the text of a saved table.
use crate::lines::{Fault, RefusedLine, column_of, follow, line_of};
use kit_lines::Kind;
use std::fmt;
use validity::{Cause, Refusal};

const KIT: &str = "(kit (blocks N) (stages N) (limit N))";

const WIRE: &str = "(wire (from N) (to N) (width N))";

const BLOCK_OR_WIRE: &str = "(block (cost N)) or (wire (from N) (to N) (width N))";

const SPLIT: &str = "(split (cut N) (rungs N) (cutat N) (moves N))";

const THE_END: &str = "the end of the text";

// Refusals 14 to 16 of a kit text, and 4.
#[derive(Clone, Copy)]
pub struct TextReason<'a> {
    pub text: &'a [u8],
    pub refusal: Refusal,
}

impl fmt::Display for TextReason<'_> {
    fn fmt<W: fmt::Write>(&self, f: &mut fmt::Formatter<W>) -> fmt::Result {
        match self.refusal.cause {
            Cause::Length => f.write_str("the text is longer than 65,536 bytes"),
            Cause::Line => f.write(kit_line(self.text, self.refusal.place)),
            Cause::Lines => f.write(counts_of(self.text)),
            _ => f.write_str("a list is too short for the text"),
        }
    }
}

// How many block lines the kit line names, and how many follow it.
#[derive(Clone, Copy, Default)]
struct Counts {
    said: u32,
    found: usize,
}

impl fmt::Display for Counts {
    fn fmt<W: fmt::Write>(&self, f: &mut fmt::Formatter<W>) -> fmt::Result {
        write!(
            f,
            "the kit line says {} blocks, but it is followed by {} block lines",
            self.said, self.found
        )
    }
}

fn counts_of(text: &[u8]) -> Counts {
    let Some(line) = kit_lines::kit_line(text, 0) else {
        return Counts::default();
    };
    Counts {
        said: line.0[0],
        found: kit_lines::block_lines(text, line.1).count,
    }
}

fn follow_kind(line: &[u8], kind: Kind) -> Result<usize, usize> {
    match kind {
        Kind::Kit => follow(line, &kit_lines::kit_fields()),
        Kind::Block => follow(line, &kit_lines::block_fields()),
        Kind::Wire => follow(line, &kit_lines::wire_fields()),
    }
}

fn kind_of(line: &[u8]) -> Option<Kind> {
    let mut kinds = [Kind::Kit, Kind::Block, Kind::Wire].into_iter();
    kinds.find(|kind| follow_kind(line, *kind).is_ok())
}

// The fault of a line that breaks the form of a kind.
fn breaks(line: &[u8], kind: Kind) -> Fault {
    Fault::Breaks(column_of(follow_kind(line, kind)))
}

// stays: a `match` on a number, here and in `SavedReason`: it is a line's, which no type of cases names.
fn kit_line(text: &[u8], number: usize) -> RefusedLine<'_, &'static str> {
    let bytes = line_of(text, number);
    let (fault, expected) = match number {
        0 | 1 => first(bytes),
        _ => match kind_of(line_of(text, number - 1)) {
            Some(Kind::Wire) => after_wire(bytes),
            _ => after_block(bytes),
        },
    };
    RefusedLine {
        number,
        bytes,
        fault,
        expected,
    }
}

fn first(line: &[u8]) -> (Fault, &'static str) {
    match kind_of(line) {
        Some(Kind::Block) => (Fault::Is("a block line, out of order"), KIT),
        Some(Kind::Wire) => (Fault::Is("a wire line, out of order"), KIT),
        _ => (breaks(line, Kind::Kit), KIT),
    }
}

fn after_wire(line: &[u8]) -> (Fault, &'static str) {
    match kind_of(line) {
        Some(Kind::Kit) => (Fault::Is("a second kit line, out of order"), WIRE),
        Some(Kind::Block) => (
            Fault::Is("a block line after a wire line, out of order"),
            WIRE,
        ),
        Some(Kind::Wire) => (Fault::Is("the 1,025th wire line, one too many"), THE_END),
        None => (breaks(line, Kind::Wire), WIRE),
    }
}

fn after_block(line: &[u8]) -> (Fault, &'static str) {
    match kind_of(line) {
        Some(Kind::Kit) => (Fault::Is("a second kit line, out of order"), BLOCK_OR_WIRE),
        Some(Kind::Block) => (Fault::Is("the 513th block line, one too many"), WIRE),
        _ => {
            let block = column_of(follow_kind(line, Kind::Block));
            let wire = column_of(follow_kind(line, Kind::Wire));
            (Fault::Breaks(block.max(wire)), BLOCK_OR_WIRE)
        }
    }
}

// Refusal 15 of the text of a saved table, by its line.
#[derive(Clone, Copy)]
pub struct SavedReason<'a> {
    pub text: &'a [u8],
    pub line: usize,
}

impl fmt::Display for SavedReason<'_> {
    fn fmt<W: fmt::Write>(&self, f: &mut fmt::Formatter<W>) -> fmt::Result {
        let number = self.line;
        let bytes = line_of(self.text, number);
        match number {
            0 | 1 => f.write(RefusedLine {
                number,
                bytes,
                fault: split_fault(bytes),
                expected: SPLIT,
            }),
            2..514 => f.write(RefusedLine {
                number,
                bytes,
                fault: entry_fault(bytes),
                expected: format_args!("(block {} (stage N))", number - 2),
            }),
            _ => f.write(RefusedLine {
                number,
                bytes,
                fault: Fault::Is("past the 512th entry, one too many"),
                expected: THE_END,
            }),
        }
    }
}

fn split_fault(line: &[u8]) -> Fault {
    Fault::Breaks(column_of(follow(line, &answer_text::split_fields())))
}

fn entry_fault(line: &[u8]) -> Fault {
    let followed = follow(line, &answer_text::tables::block_entry_fields());
    if followed.is_ok() {
        Fault::Is("another block's line, out of order")
    } else {
        Fault::Breaks(column_of(followed))
    }
}
