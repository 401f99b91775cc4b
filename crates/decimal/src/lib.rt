#![tactic(auto)]

ghost use Rattle.std.specs.Prelude.{◌≡◌, ◌+◌, ◌<◌, ◌≤◌, length, drop, ◌++◌};
ghost use Rattle.decimal.specs.Decimal.{decimal};
ghost use Rattle.decimal.specs.Write.{Puts, Width};
ghost use Rattle.decimal.specs.Read.{more_of, number_of, starts_of, field_of};

// Numbers in base ten, read from a text and written into a buffer.

// A number that is read has the place after it beside it; where none stands, there is `None`.
// stays: the place goes beside the text, here and below: a type of both would be answered anew by each reader, with a clause that its text is the same.

// The digits from a place on, after those of first.
fn more(text: &[u8], from: usize, first: u32, most: u32) -> Option<(u32, usize)>
    requires { (from ≤ length text.now) × (first ≤ most) × (most < 100000000) }
    ensures { result ≡ more_of most first from (drop from text.now) }
{
    let mut v = first;
    for i in from..text.len() {
        let b = text[i];
        if !b.is_ascii_digit() {
            return Some((v, i));
        }
        if v == 0 {
            return None;
        }
        let w = v * 10 + u32::from(b - b'0');
        if w > most {
            return None;
        }
        v = w;
    }
    Some((v, text.len()))
}

// The number that stands at a place, if it is at most `most`.
pub fn number_at(text: &[u8], at: usize, most: u32) -> Option<(u32, usize)>
    requires { (9 ≤ most) × (most < 100000000) }
    ensures { result ≡ number_of most at (drop at text.now) }
{
    let b = *text.get(at)?;
    if !b.is_ascii_digit() {
        return None;
    }
    more(text, at + 1, u32::from(b - b'0'), most)
}

// Whether a word stands at a place.
pub fn starts(text: &[u8], at: usize, word: &[u8]) -> bool
    ensures { result ≡ starts_of word.now (drop at text.now) }
{
    text[at.min(text.len())..].starts_with(word)
}

// A word, and the most that the number after it may be.
#[derive(Clone, Copy)]
pub struct Field<'a> {
    pub word: &'a [u8],
    pub most: u32,
    ghost range: { (9 ≤ most) × (most < 100000000) },
}

fn digit_of(d: usize) -> u8
    requires { d < 10 }
    ensures { result ≡ 48 + d }
{
    b'0' + d as u8
}

// How many digits a number has.
// stays: `as`, here and in other crates: std has no `From` from u32 to usize nor from an enum to its number, and where it narrows, the number is proved to fit.
pub fn width(v: usize) -> usize
    ensures { Width v result }
{
    v.max(1).ilog10() as usize + 1
}

// Writes a number in base ten at a place, and returns the place past it.
// stays: the place goes beside the buffer, here and below, as beside the text in reading: with a type of both a clause would still name each, old and new.
pub fn show(buf: &mut [u8], at: usize, v: usize) -> usize
    requires { at + length (decimal v) ≤ length buf.old }
    ensures { Puts buf.old at (decimal v) buf.new result }
{
    if v < 10 {
        buf[at] = digit_of(v);
        return at + 1;
    }
    let i = show(buf, at, v / 10);
    buf[i] = digit_of(v % 10);
    i + 1
}

// Copies a word to a place, and returns the place past it.
// stays: `row_lists::copy` but for the place past it, which what is written next needs, and for what each promises of the rest.
pub fn copy(buf: &mut [u8], at: usize, word: &[u8]) -> usize
    requires { at + length word.now ≤ length buf.old }
    ensures { Puts buf.old at word.now buf.new result }
{
    let end = at + word.len();
    buf[at..end].copy_from_slice(word);
    end
}

impl<'a> Field<'a> {
    pub fn new(word: &'a [u8], most: u32) -> Field<'a>
        requires { (9 ≤ most) × (most < 100000000) }
        ensures { (result.word ≡ word.entry) × (result.most ≡ most) }
    {
        Field { word, most }
    }

    // The word and a number, from a place on.
    pub fn read(self, text: &[u8], at: usize) -> Option<(u32, usize)>
        ensures { result ≡ field_of self.entry.word.now self.entry.most text.now at }
    {
        if !starts(text, at, self.word) {
            return None;
        }
        number_at(text, at + self.word.len(), self.most)
    }

    // Writes the word and a number at a place, and returns the place past them.
    pub fn put(self, buf: &mut [u8], at: usize, v: usize) -> usize
        requires { at + length (self.word.now ++ decimal v) ≤ length buf.old }
        ensures { Puts buf.old at (self.entry.word.now ++ decimal v) buf.new result }
    {
        let i = copy(buf, at, self.word);
        show(buf, i, v)
    }
}
