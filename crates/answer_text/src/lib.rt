#![tactic(auto)]

ghost use Rattle.std.specs.Prelude.{◌≡◌, ◌+◌, ◌^◌, ◌<◌, ◌≤◌, [], ◌∷◌, ltb, length};
ghost use Rattle.decimal.specs.Decimal.{bytes};
ghost use Rattle.decimal.specs.Write.{Puts};
ghost use Rattle.line_forms.specs.Form.{form, printed, printed_all, needs, needs_all};
ghost use Rattle.line_forms.specs.Lent.{fields_in};
ghost use Rattle.answer_text.specs.Forms.{split_form, entry_form, inspected_form, refused_form, headed};
ghost use Rattle.answer_text.specs.Answers.{enumerated, table_text, split_text, order_text, refusal_text, writing, written, outcome, RoomIs};

use decimal::Field;

pub mod tables;

// The writer of answers: lines into a buffer that the caller lends, or nothing where it is too short. What it answers is the
// number of bytes written; `None` is document 01's refusal 4 at place 0.

// The lines of a table's entries: the word that each begins with, and the entries.
#[derive(Clone, Copy)]
struct EntryLines<'a> {
    word: &'a [u8],
    entries: &'a [u16],
    ghost short: { length word.now ≤ 16 },
}

// The words of each line with what may stand after them; the end is the same of all.
pub fn split_fields() -> [Field<'static>; 4]
    ensures { fields_in result ≡ split_form.fields }
{
    [
        Field::new(b"(split (cut ", 99_999_999),
        Field::new(b") (rungs ", 99_999_999),
        Field::new(b") (cutat ", 99_999_999),
        Field::new(b") (moves ", 99_999_999),
    ]
}

fn entry_fields<'a>(word: &'a [u8]) -> [Field<'a>; 2]
    ensures { fields_in result ≡ (entry_form word.entry.now).fields }
{
    [Field::new(word, 65535), Field::new(b" (stage ", 65535)]
}

fn order_fields() -> [Field<'static>; 1]
    ensures { fields_in result ≡ inspected_form.fields }
{
    [Field::new(b"(inspected (cut ", 99_999_999)]
}

fn refusal_fields() -> [Field<'static>; 2]
    ensures { fields_in result ≡ refused_form.fields }
{
    [
        Field::new(b"(refused (number ", 65535),
        Field::new(b") (place ", 65535),
    ]
}

impl EntryLines<'_> {
    // How many bytes the line of an entry takes.
    fn length_at(self, n: usize, entry: u16) -> usize
        ensures { result ≡ needs (entry_form self.entry.word.now) (n ∷ entry ∷ []) }
    {
        line_forms::needs(&entry_fields(self.word), &[n, usize::from(entry)], b"))\n")
    }

    // What the lines leave of so many bytes, if they fit.
    fn room_left(self, size: usize) -> Option<usize>
        ensures { RoomIs size (needs_all (entry_form self.entry.word.now) (enumerated 0 self.entry.entries.now)) result }
    {
        let mut left = size;
        for (n, entry) in self.entries.iter().enumerate() {
            let need = self.length_at(n, *entry);
            if left < need {
                return None;
            }
            left -= need;
        }
        Some(left)
    }

    // Whether a head line and the lines are more than fits.
    fn is_over(self, size: usize, head: usize) -> bool
        ensures { result ≡ ltb size (head + needs_all (entry_form self.entry.word.now) (enumerated 0 self.entry.entries.now)) }
    {
        if size < head {
            return true;
        }
        self.room_left(size - head).is_none()
    }

    // Writes the line of an entry.
    // stays: the place goes beside the buffer, here and below, as in `decimal::show`.
    fn put_at(self, buf: &mut [u8], at: usize, n: usize, entry: u16) -> usize
        requires { at + length (printed (entry_form self.word.now) (n ∷ entry ∷ [])) ≤ length buf.old }
        ensures { Puts buf.old at (printed (entry_form self.entry.word.now) (n ∷ entry ∷ [])) buf.new result }
    {
        line_forms::put(
            buf,
            at,
            &entry_fields(self.word),
            &[n, usize::from(entry)],
            b"))\n",
        )
    }

    // Writes the lines.
    fn put(self, buf: &mut [u8], at: usize) -> usize
        requires { at + length (printed_all (entry_form self.word.now) (enumerated 0 self.entries.now)) ≤ length buf.old }
        ensures { Puts buf.old at (printed_all (entry_form self.entry.word.now) (enumerated 0 self.entry.entries.now)) buf.new result }
    {
        let mut i = at;
        for (n, entry) in self.entries.iter().enumerate() {
            i = self.put_at(buf, i, n, *entry);
        }
        i
    }
}

// A head line of some figures, and a line for each entry.
fn write_table(
    buf: &mut [u8],
    fields: &[Field<'_>],
    figures: &[usize],
    lines: EntryLines<'_>,
) -> Option<usize>
    requires { needs (headed (fields_in fields.now)) figures.now < 2 ^ 64 }
    ensures result_value { outcome result ≡ writing (table_text (headed (fields_in fields.now)) figures.now lines.entry.word.now lines.entry.entries.now) buf.old }
    ensures buf_after { buf.new ≡ written (table_text (headed (fields_in fields.now)) figures.now lines.entry.word.now lines.entry.entries.now) buf.old }
{
    let head = line_forms::needs(fields, figures, b"))\n");
    if lines.is_over(buf.len(), head) {
        return None;
    }
    let i = line_forms::put(buf, 0, fields, figures, b"))\n");
    Some(lines.put(buf, i))
}

// The lines that the splitting program prints.
pub fn write_split(
    buf: &mut [u8],
    cut: usize,
    rungs: usize,
    cutat: usize,
    moves: usize,
    parts: &[u16],
) -> Option<usize>
    ensures result_value { outcome result ≡ writing (split_text cut rungs cutat moves parts.now) buf.old }
    ensures buf_after { buf.new ≡ written (split_text cut rungs cutat moves parts.now) buf.old }
{
    let lines = EntryLines {
        word: b"(block ",
        entries: parts,
    };
    write_table(buf, &split_fields(), &[cut, rungs, cutat, moves], lines)
}

// The lines of a start order that inspection gives.
pub fn write_order(buf: &mut [u8], cut: usize, order: &[u16]) -> Option<usize>
    ensures result_value { outcome result ≡ writing (order_text cut order.now) buf.old }
    ensures buf_after { buf.new ≡ written (order_text cut order.now) buf.old }
{
    let lines = EntryLines {
        word: b"(start ",
        entries: order,
    };
    write_table(buf, &order_fields(), &[cut], lines)
}

// The refusal line.
// stays: a number: a `Cause` would ask more of callers, who may hand on any.
pub fn write_refusal(buf: &mut [u8], number: usize, place: usize) -> Option<usize>
    ensures result_value { outcome result ≡ writing (refusal_text number place) buf.old }
    ensures buf_after { buf.new ≡ written (refusal_text number place) buf.old }
{
    let fields = refusal_fields();
    let figures = [number, place];
    let need = line_forms::needs(&fields, &figures, b"))\n");
    if buf.len() < need {
        return None;
    }
    Some(line_forms::put(buf, 0, &fields, &figures, b"))\n"))
}
