// Runs the reader of kit text, the writer of answers and the reader of tables into lists and buffers that are just long
// enough, or one short. What the programs themselves can be made to say is in tests/words.
#![tactic(auto)]

ghost use Rattle.std.specs.Prelude.{◌≤◌};

use answer_text::tables::{SavedTable, TableError};
use kit_text::Figures;
use std::{fmt, io};
use validity::{Cause, Refusal};

// A name and the first three entries of a list.
#[derive(Clone, Copy)]
struct Beginning<'a>(&'static str, &'a [u16]);

impl fmt::Display for Beginning<'_> {
    fn fmt<W: fmt::Write>(&self, f: &mut fmt::Formatter<W>) -> fmt::Result {
        write!(f, "; {}", self.0)?;
        for x in self.1.iter().take(3) {
            write!(f, " {x}")?;
        }
        Ok(())
    }
}

fn say_reading(rt: &impl Print, name: &str, reading: Result<Figures, Refusal>) -> io::Result<()> {
    match reading {
        Ok(
            Figures {
                blocks,
                wires,
                stages,
                limit,
            },
        ) => print!(rt; "{name}: kit {blocks} {wires} {stages} {limit}"),
        Err(Refusal { cause, place }) => print!(rt; "{name}: refused {} {place}", cause.number()),
    }
}

// Reads a text into lists of those lengths, which hold 7 before the call, and says the answer and how they begin.
fn room<const C: usize, const S: usize, const E: usize, const W: usize>(
    rt: &impl Print,
    name: &str,
    text: &[u8],
) -> io::Result<()>
    requires { (C ≤ 5) × (S ≤ 4) × (E ≤ 4) × (W ≤ 4) }
{
    let mut costs = [7u16; C];
    let mut starts = [7u16; S];
    let mut ends = [7u16; E];
    let mut widths = [7u16; W];
    let reading = kit_text::read_kit(text, &mut costs, &mut starts, &mut ends, &mut widths);
    say_reading(rt, name, reading)?;
    rt.print(Beginning("costs", &costs))?;
    rt.print(Beginning("starts", &starts))?;
    rt.print(Beginning("ends", &ends))?;
    rt.println(Beginning("widths", &widths))
}

// Three blocks and two wires.
fn rooms(rt: &impl Print) -> io::Result<()> {
    let text =
        b"(kit (blocks 3) (stages 2) (limit 9))\n(block (cost 4))\n(block (cost 5))\n(block (cost 6))\n(wire (from 0) (to 1) (width 8))\n(wire (from 1) (to 2) (width 9))\n";
    room::<5, 4, 4, 4>(rt, "lists longer than the kit", text)?;
    room::<3, 2, 2, 2>(rt, "lists just long enough", text)?;
    room::<2, 2, 2, 2>(rt, "costs one too short", text)?;
    room::<3, 1, 2, 2>(rt, "starts one too short", text)?;
    room::<3, 2, 1, 2>(rt, "ends one too short", text)?;
    room::<3, 2, 2, 1>(rt, "widths one too short", text)
}

fn refused(rt: &impl Print, text: &[u8]) -> io::Result<()> {
    room::<5, 4, 4, 4>(rt, "a refused text, and room", text)?;
    room::<0, 0, 0, 0>(rt, "a refused text, and none", text)
}

fn readings(rt: &impl Print) -> io::Result<()> {
    rooms(rt)?;
    refused(
        rt,
        b"(kit (blocks 2) (stages 1) (limit 1))\n(block (cost 1))\n",
    )?;
    refused(
        rt,
        b"(kit (blocks 2) (stages 1) (limit 1))\n(block (cost 1)\n",
    )?;
    room::<0, 0, 0, 0>(
        rt,
        "no blocks, no room",
        b"(kit (blocks 0) (stages 1) (limit 1))\n",
    )
}

// One of document 01's answers, into a buffer of that length, which is just long enough or one byte short.
fn answer<const N: usize, F: FnOnce(&mut [u8]) -> Option<usize>>(
    rt: &impl Print,
    name: &str,
    write: F,
) -> io::Result<()>
    requires write { F.IsAlwaysCallable write }
    requires small { N ≤ 166 }
{
    let mut buf = [b'.'; N];
    match write(&mut buf) {
        Some(n) => {
            println!(rt; "{name}: {n} bytes")?;
            rt.write_all(&buf[..n.min(N)])
        }
        None => {
            println!(rt; "{name}: refused 4 0, and the buffer holds")?;
            rt.write_all(&buf)?;
            println!(rt)
        }
    }
}

fn split<const N: usize>(rt: &impl Print, name: &str, parts: &[u16]) -> io::Result<()>
    requires { N ≤ 166 }
{
    answer::<N, _>(
        rt,
        name,
        |buf| answer_text::write_split(buf, 1, 1, 1, 0, parts),
    )
}

fn order<const N: usize>(rt: &impl Print, name: &str) -> io::Result<()>
    requires { N ≤ 166 }
{
    answer::<N, _>(
        rt,
        name,
        |buf| answer_text::write_order(buf, 67_107_840, &[1, 0, 15]),
    )
}

fn refusal<const N: usize>(rt: &impl Print, name: &str, refusal: Refusal) -> io::Result<()>
    requires { N ≤ 166 }
{
    let number = refusal.cause.number() as usize;
    answer::<N, _>(
        rt,
        name,
        |buf| answer_text::write_refusal(buf, number, refusal.place),
    )
}

fn answers(rt: &impl Print) -> io::Result<()> {
    let parts = [0, 0, 1, 1, 1, 1];
    split::<166>(rt, "split", &parts)?;
    split::<165>(rt, "split, one byte short", &parts)?;
    split::<45>(rt, "split of no entries, one byte short", &[])?;
    order::<88>(rt, "order")?;
    order::<87>(rt, "order, one byte short")?;
    refusal::<31>(rt, "refusal", Cause::Uncut.at(0))?;
    refusal::<30>(rt, "refusal, one byte short", Cause::Uncut.at(0))?;
    refusal::<60>(
        rt,
        "refusal at the highest place",
        Cause::Line.at(usize::MAX),
    )?;
    refusal::<0>(rt, "refusal into no bytes", Cause::Room.at(0))
}

fn say_table(rt: &impl Print, name: &str, table: Result<SavedTable, TableError>) -> io::Result<()> {
    match table {
        Ok(
            SavedTable {
                cut,
                rungs,
                cutat,
                moves,
                entries,
            },
        ) => print!(rt; "{name}: table {cut} {rungs} {cutat} {moves} {entries}"),
        Err(TableError::BadLine(line)) => print!(rt; "{name}: line {line}"),
        Err(TableError::Short) => print!(rt; "{name}: list too short"),
    }
}

fn table<const N: usize>(rt: &impl Print, name: &str, text: &[u8]) -> io::Result<()>
    requires { N ≤ 8 }
{
    let mut parts = [7u16; N];
    let answer = answer_text::tables::read_table(text, &mut parts);
    say_table(rt, name, answer)?;
    rt.println(Beginning("entries", &parts))
}

fn tables(rt: &impl Print) -> io::Result<()> {
    let text =
        b"(split (cut 1) (rungs 1) (cutat 1) (moves 0))\n(block 0 (stage 0))\n(block 1 (stage 15))\n(block 2 (stage 65535))\n";
    table::<3>(rt, "a table", text)?;
    table::<2>(rt, "a table, list one too short", text)?;
    table::<8>(
        rt,
        "a table of no entries",
        b"(split (cut 0) (rungs 0) (cutat 0) (moves 0))\n",
    )?;
    table::<8>(rt, "no split line", b"(block 0 (stage 0))\n")?;
    table::<8>(rt, "no text of a table", b"")?;
    table::<8>(
        rt,
        "numbers out of order",
        b"(split (cut 1) (rungs 1) (cutat 1) (moves 0))\n(block 0 (stage 0))\n(block 2 (stage 0))\n",
    )?;
    table::<8>(rt, "a refusal line", b"(refused (number 9) (place 0))\n")
}

fn main(rt: HostRuntime) -> io::Result<()> {
    readings(&rt)?;
    answers(&rt)?;
    tables(&rt)
}
