// A line that is refused with 15: it breaks its form, is out of order or is one too many; what was expected there; and its
// bytes.
use decimal::Field;
use std::fmt;

// A line from its first byte to the byte 10 that ends it, or to the text's end; empty past the last.
pub fn line_of(text: &[u8], number: usize) -> &[u8] {
    let mut lines = text.split_inclusive(|b| *b == b'\n');
    lines.nth(number.saturating_sub(1)).unwrap_or(&[])
}

fn past_byte(line: &[u8], at: usize, b: u8) -> Option<usize> {
    (*line.get(at)? == b).then_some(at + 1)
}

// The place past a word, or else where the line breaks it.
fn past_word(line: &[u8], at: usize, word: &[u8]) -> Result<usize, usize> {
    let mut i = at;
    for b in word {
        i = past_byte(line, i, *b).ok_or(i)?;
    }
    Ok(i)
}

// The place past the fields of a form and what closes the line, or else where the line breaks the form.
pub fn follow(line: &[u8], fields: &[Field<'_>]) -> Result<usize, usize> {
    let mut at = 0;
    for f in fields {
        let i = past_word(line, at, f.word)?;
        let (_, past) = decimal::number_at(line, i, f.most).ok_or(i)?;
        at = past;
    }
    past_word(line, at, b"))\n")
}

// The column, from 1, to which a line follows a form.
pub fn column_of(followed: Result<usize, usize>) -> usize {
    let (Ok(place) | Err(place)) = followed;
    place.saturating_add(1)
}

// What is wrong with a line: the column at which its form breaks, or what it is instead.
#[derive(Clone, Copy)]
pub enum Fault {
    Breaks(usize),
    Is(&'static str),
}

// A refused line, by its number, and what was expected there.
#[derive(Clone, Copy)]
pub struct RefusedLine<'a, E> {
    pub number: usize,
    pub bytes: &'a [u8],
    pub fault: Fault,
    pub expected: E,
}

impl<E: fmt::Display> fmt::Display for RefusedLine<'_, E> {
    fn fmt<W: fmt::Write>(&self, f: &mut fmt::Formatter<W>) -> fmt::Result {
        write!(f, "line {}", self.number)?;
        match self.fault {
            Fault::Breaks(column) => write!(f, ", column {column}: the form breaks")?,
            Fault::Is(what) => write!(f, ": {what}")?,
        }
        write!(
            f,
            "; expected is {}: {}",
            self.expected,
            Shown { line: self.bytes }
        )
    }
}

// The bytes of a line, at most 120 of them, and how it ends where it does not end by a byte 10.
#[derive(Clone, Copy)]
struct Shown<'a> {
    line: &'a [u8],
}

impl Shown<'_> {
    fn ending(&self, body: &[u8]) -> &'static str {
        if self.line.is_empty() {
            "the text ends before it"
        } else if body.len() > 120 {
            " .."
        } else if body.len() == self.line.len() {
            " (which lacks the byte 10 that ends a line)"
        } else {
            ""
        }
    }
}

impl fmt::Display for Shown<'_> {
    fn fmt<W: fmt::Write>(&self, f: &mut fmt::Formatter<W>) -> fmt::Result {
        let body = self.line.strip_suffix(b"\n").unwrap_or(self.line);
        for b in body.iter().take(120) {
            f.write_char(printable(*b))?;
        }
        f.write_str(self.ending(body))
    }
}

fn printable(b: u8) -> char {
    if b == b' ' || b.is_ascii_graphic() {
        char::from(b)
    } else {
        '?'
    }
}
