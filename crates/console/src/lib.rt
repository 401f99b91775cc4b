// What the programs share: reading an input to its end, and a kit from it; answers to standard output, words to standard
// error.
#![tactic(auto)]

use graph::Problem;
use reasons::texts::TextReason;
use std::env::FillError;
use std::io::Write;
use std::rt::{Env, Stderr, Stdout};
use std::{fmt, io};
use validity::Refusal;

pub mod input;
pub mod kits;

use kits::{KitSpace, front};

// Whether the program was started with so many arguments or more.
pub fn has_argument(env: &impl Env, count: usize) -> bool {
    let mut none = [0u8; 0];
    !matches!(env.arg(count, &mut none), Err(FillError::NotPresent))
}

// Where a program's answers go, and its words, which begin with its name. Words that standard error does not take are lost:
// there is nowhere else to say them.
#[derive(Clone, Copy)]
pub struct Console<'a> {
    pub program: &'a [u8],
    pub answers: Stdout,
    pub words: Stderr,
}

impl<'a> Console<'a> {
    pub fn of(rt: &HostRuntime, program: &'a [u8]) -> Console<'a> {
        Console {
            program,
            answers: rt.stdout(),
            words: rt.stderr(),
        }
    }

    // Words, and the program's name, need not be text.
    pub fn say(self, words: &[u8]) {
        let _ = Print::write_all(&self.words, words);
    }

    // The program's name, and words.
    pub fn begin(self, words: &[u8]) {
        self.say(self.program);
        self.say(b": ");
        self.say(words);
    }

    pub fn explain(self, reason: impl fmt::Display + Drop) {
        self.say(self.program);
        let _ = eprintln!(self.words; ": {reason}");
    }

    // What failed, and why.
    pub fn fail(self, what: &[u8], why: impl fmt::Display + Drop) {
        self.begin(what);
        let _ = eprintln!(self.words; ": {why}");
    }

    // A reason that has to do with a file. The file's name goes out as it came in, which need not be text.
    pub fn explain_file(self, what: &str, name: &[u8], reason: impl fmt::Display + Drop) {
        self.begin(what.as_bytes());
        self.say(name);
        let _ = eprintln!(self.words; ": {reason}");
    }

    // Writes an answer, the first bytes of its buffer, to standard output, in one piece.
    pub fn answer(self, written: Option<usize>, buf: &[u8]) {
        let Some(n) = written else {
            self.explain("the answer does not fit its buffer");
            return;
        };
        if let Err(why) = Print::write_all(&self.answers, front(buf, n)) {
            self.fail(b"the answer cannot be written", Plain(why));
        }
    }

    // stays: a refusal by its number, which may be any: who calls this need not have a cause.
    pub fn answer_number(self, number: usize, place: usize) {
        let mut buf = [0u8; 64];
        let written = answer_text::write_refusal(&mut buf, number, place);
        self.answer(written, &buf);
    }

    pub fn answer_refusal(self, refusal: Refusal) {
        self.answer_number(refusal.cause.number() as usize, refusal.place);
    }

    pub fn refuse(self, refusal: Refusal, reason: impl fmt::Display + Drop) {
        self.answer_refusal(refusal);
        self.explain(reason);
    }

    // A text's kit, or none where the text is refused, which is then said.
    pub fn kit_of<'s>(self, space: &'s mut KitSpace, text: &[u8]) -> Option<Problem<'s>> {
        match space.read(text) {
            Ok(kit) => Some(kit),
            Err(refusal) => {
                self.refuse(refusal, TextReason { text, refusal });
                None
            }
        }
    }
}

// An error of the system in words, without the number that stands behind them.
#[derive(Clone, Copy)]
pub struct Plain(pub io::Error);

impl fmt::Display for Plain {
    fn fmt<W: fmt::Write>(&self, f: &mut fmt::Formatter<W>) -> fmt::Result {
        let mut buf = [0u8; 128];
        let words = std::str::from_utf8(words_of(self.0, &mut buf)).unwrap_or("no words");
        match words.split_once(" (os error ") {
            Some((front, _)) => f.write_str(front),
            None => f.write_str(words),
        }
    }
}

// An error's words, at the start of the buffer.
fn words_of(why: io::Error, buf: &mut [u8]) -> &[u8] {
    let size = buf.len();
    let mut rest = &mut *buf;
    let _ = write!(rest, "{why}");
    let n = size.saturating_sub(rest.len());
    front(buf, n)
}
