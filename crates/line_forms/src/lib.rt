#![tactic(auto)]

ghost use Rattle.std.specs.Prelude.{Some, ℕ, ◌≡◌, ◌+◌, ◌^◌, ◌<◌, ◌≤◌, length};
ghost use Rattle.decimal.specs.Write.{Puts};
ghost use Rattle.line_forms.specs.Read.{read_fields};
ghost use Rattle.line_forms.specs.Form.{printed_fields, needs_fields};
ghost use Rattle.line_forms.specs.Lent.{fields_in};
ghost use Rattle.line_forms.specs.Run.{IsRun, AreEntries};

use decimal::Field;

// Lines of a few numbers with words around them, each read from a place on.

// Lines of one form, one after another, and the place past them.
#[derive(Clone, Copy)]
pub struct Run {
    pub count: usize,
    pub next: usize,
}

// The numbers of the line at a place, each after its word, and the place past what closes the line.
// stays: the place goes beside the text, here and below, as in `decimal`.
pub fn read<const N: usize>(
    text: &[u8],
    at: usize,
    fields: &[Field<'_>],
    end: &[u8],
) -> Option<([u32; N], usize)>
    requires { length fields.now ≡ N }
    ensures { result ≡ read_fields (fields_in fields.now) end.now text.now at }
{
    let mut numbers = [0; N];
    let mut i = at;
    for (k, f) in fields.iter().enumerate() {
        let (v, j) = f.read(text, i)?;
        numbers[k] = v;
        i = j;
    }
    if !decimal::starts(text, i, end) {
        return None;
    }
    Some((numbers, i + end.len()))
}

// The same line, written at a place, with the place past it returned.
// stays: the place goes beside the buffer, as in `decimal::show`.
pub fn put(buf: &mut [u8], at: usize, fields: &[Field<'_>], numbers: &[usize], end: &[u8]) -> usize
    requires { at + length (printed_fields (fields_in fields.now) end.now numbers.now) ≤ length buf.old }
    ensures { Puts buf.old at (printed_fields (fields_in fields.now) end.now numbers.now) buf.new result }
{
    let mut i = at;
    for (f, v) in fields.iter().zip(numbers) {
        i = f.put(buf, i, *v);
    }
    decimal::copy(buf, i, end)
}

// How many bytes the same line takes.
pub fn needs(fields: &[Field<'_>], numbers: &[usize], end: &[u8]) -> usize
    requires { needs_fields (fields_in fields.now) end.now numbers.now < 2 ^ 64 }
    ensures { result ≡ needs_fields (fields_in fields.now) end.now numbers.now }
{
    let mut sum = end.len();
    for (f, v) in fields.iter().zip(numbers) {
        sum += f.word.len() + decimal::width(*v);
    }
    sum
}

// The lines from a place on, at most so many: `line` is told a line's number and place, and answers the place past it.
pub fn run_of<F: Fn(usize, usize) -> Option<usize>>(at: usize, most: usize, line: F) -> Run
    requires { (n i : ℕ) → F.pre line n i }
    ensures { IsRun (F.post line) at most result }
{
    let mut i = at;
    for n in 0..most {
        let Some(j) = line(n, i) else {
            return Run { count: n, next: i };
        };
        i = j;
    }
    Run {
        count: most,
        next: i,
    }
}

// Writes an entry of each line from a place on into a list, at most so many: `entry` is told a line's number and place, and
// answers the entry and the place past the line.
pub fn write_entries<F: Fn(usize, usize) -> Option<(u32, usize)>>(
    list: &mut [u16],
    at: usize,
    most: usize,
    entry: F,
)
    requires callable { (n i : ℕ) → F.pre entry n i }
    requires low { (n i v j : ℕ) → F.post entry n i (Some (v, j)) → v ≤ 65535 }
    ensures { AreEntries (F.post entry) at most list.old list.new }
{
    let mut i = at;
    for n in 0..most.min(list.len()) {
        let Some((v, j)) = entry(n, i) else {
            return;
        };
        list[n] = v as u16;
        i = j;
    }
}
