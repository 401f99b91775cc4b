// The program `inspect`: a kit text and a saved table, named as arguments; the verdict on standard output, reasons on
// standard error.
#![tactic(auto)]

use answer_text::tables::TableError;
use console::input::SPACE;
use console::kits::{KitSpace, front};
use console::{Console, Plain};
use graph::Problem;
use reasons::tables::{CutsDiffer, TableReason};
use reasons::texts::SavedReason;
use std::env::FillError;
use std::fs::File;
use std::rt::{Env, Files};
use std::{fmt, io};
use validity::Cause;

fn pass(console: Console<'_>, found: u32, saved: u32, order: &[u16]) {
    let mut buf = [0u8; 1024];
    let written = answer_text::write_order(&mut buf, found as usize, order);
    console.answer(written, &buf);
    if found != saved {
        console.explain(CutsDiffer { found, saved });
    }
}

fn inspect(console: Console<'_>, kit: Problem<'_>, parts: &[u16], saved: u32) {
    let mut order = [0u16; 16];
    match inspection::inspect(kit, parts, &mut order) {
        Ok(found) => pass(console, found, saved, front(&order, kit.k)),
        Err(refusal) => console.refuse(
            refusal,
            TableReason {
                kit,
                parts,
                refusal,
            },
        ),
    }
}

// A text by its file's name.
#[derive(Clone, Copy)]
struct Named<'a> {
    name: &'a [u8],
    text: &'a [u8],
}

// The saved table, once the kit has been read. A text that is not of its form is 15 at its line, as a kit text is.
fn inspect_saved(console: Console<'_>, kit: Problem<'_>, table: Named<'_>) {
    let mut parts = [0u16; 512];
    match answer_text::tables::read_table(table.text, &mut parts) {
        Ok(saved) => inspect(console, kit, front(&parts, saved.entries), saved.cut),
        Err(TableError::BadLine(line)) => {
            console.answer_refusal(Cause::Line.at(line));
            console.explain_file(
                "",
                table.name,
                SavedReason {
                    text: table.text,
                    line,
                },
            );
        }
        Err(TableError::Short) => console.explain("the table does not fit its list"),
    }
}

// The kit first: a kit text that is refused leaves the table unread.
fn inspect_texts(console: Console<'_>, text: &[u8], table: Named<'_>) {
    let mut space = KitSpace::new();
    if let Some(kit) = console.kit_of(&mut space, text) {
        inspect_saved(console, kit, table);
    }
}

// What could not be done with the file of a name, and why.
#[derive(Clone, Copy)]
struct FileError<'a> {
    what: &'static str,
    name: &'a [u8],
    why: io::Error,
}

// A file is found by its name as text.
fn open<R: Files>(rt: &R, name: &[u8]) -> io::Result<R::File> {
    match std::str::from_utf8(name) {
        Ok(path) => File::open(rt, path),
        Err(_) => Err(io::Error::new(io::ErrorKind::InvalidFilename, "the name is not UTF-8")),
    }
}

fn read_file<'n, 'b>(
    rt: &impl Files,
    name: &'n [u8],
    buf: &'b mut [u8],
) -> Result<&'b [u8], FileError<'n>> {
    let mut file = open(rt, name).map_err(|why| FileError {
        what: "cannot open ",
        name,
        why,
    })?;
    console::input::read_all(&mut file, buf).map_err(|why| FileError {
        what: "cannot read ",
        name,
        why,
    })
}

fn run<'n>(
    rt: &impl Files,
    console: Console<'_>,
    first: &'n [u8],
    second: &'n [u8],
) -> Result<(), FileError<'n>> {
    let mut kit = [0u8; SPACE];
    let text = read_file(rt, first, &mut kit)?;
    let mut saved = [0u8; SPACE];
    let table = read_file(rt, second, &mut saved)?;
    inspect_texts(
        console,
        text,
        Named {
            name: second,
            text: table,
        },
    );
    Ok(())
}

// An argument that cannot be had.
#[derive(Clone, Copy)]
struct ArgumentError {
    what: &'static str,
    why: FillError,
}

impl fmt::Display for ArgumentError {
    fn fmt<W: fmt::Write>(&self, f: &mut fmt::Formatter<W>) -> fmt::Result {
        let why = match self.why {
            FillError::TooLong => "File name too long",
            FillError::NotPresent => "Invalid argument",
        };
        write!(f, "{}: {why}", self.what)
    }
}

fn argument<'b>(
    rt: &impl Env,
    at: usize,
    what: &'static str,
    buf: &'b mut [u8],
) -> Result<&'b [u8], ArgumentError> {
    let n = rt.arg(at, buf).map_err(|why| ArgumentError { what, why })?;
    Ok(front(buf, n))
}

fn run_named(rt: &(impl Env + Files), console: Console) -> Result<(), ArgumentError> {
    let mut first = [0u8; 4096];
    let mut second = [0u8; 4096];
    let kit = argument(rt, 1, "the name of the kit file", &mut first)?;
    let table = argument(rt, 2, "the name of the table file", &mut second)?;
    if let Err(FileError { what, name, why }) = run(rt, console, kit, table) {
        console.explain_file(what, name, Plain(why));
    }
    Ok(())
}

fn main(rt: HostRuntime) {
    let console = Console::of(&rt, b"inspect");
    if !console::has_argument(&rt, 2) || console::has_argument(&rt, 3) {
        console.say(
            b"usage: inspect KITFILE TABLEFILE\nTwo file names are needed: a kit text, and a table as split prints it.\n",
        );
        return;
    }
    if let Err(why) = run_named(&rt, console) {
        console.explain(why);
    }
}
