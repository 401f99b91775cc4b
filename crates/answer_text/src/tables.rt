ghost use Rattle.std.specs.Prelude.{◌≡◌, ◌+◌, ◌<◌, ◌≤◌, length, drop};
ghost use Rattle.folds.specs.Fold.{over};
ghost use Rattle.line_forms.specs.Lines.{Ran, in_order, column, lines_of};
ghost use Rattle.line_forms.specs.Read.{read_form, if_numbered};
ghost use Rattle.line_forms.specs.Lent.{fields_in};
ghost use Rattle.answer_text.specs.Forms.{split_form, entry_form, block_word};
ghost use Rattle.answer_text.specs.Tables.{entry_rows, saved_in, table_answer, answer_of, table_written};

use crate::{entry_fields, split_fields};
use decimal::Field;
use line_forms::{Run, run_of, write_entries};

// The reader of stage tables as the splitting program prints them.

// The figures of the split line and the number of entries.
#[derive(Clone, Copy)]
pub struct SavedTable {
    pub cut: u32,
    pub rungs: u32,
    pub cutat: u32,
    pub moves: u32,
    pub entries: usize,
}

// 15, the line that is not of the form; or 4, a list too short.
#[derive(Clone, Copy)]
pub enum TableError {
    BadLine(usize),
    Short,
}

// The words of a table's entry, with what may stand after them.
pub fn block_entry_fields() -> [Field<'static>; 2]
    ensures { fields_in result ≡ (entry_form block_word).fields }
{
    entry_fields(b"(block ")
}

// stays: the place goes beside the text, here and below, as in `decimal`.
fn split_line(text: &[u8], at: usize) -> Option<([u32; 4], usize)>
    ensures { result ≡ read_form split_form text.now at }
{
    line_forms::read(text, at, &split_fields(), b"))\n")
}

fn entry_line(text: &[u8], at: usize) -> Option<([u32; 2], usize)>
    ensures { result ≡ read_form (entry_form block_word) text.now at }
{
    line_forms::read(text, at, &block_entry_fields(), b"))\n")
}

// The line of entry n.
fn entry_of(text: &[u8], at: usize, n: usize) -> Option<([u32; 2], usize)>
    ensures { result ≡ if_numbered n (read_form (entry_form block_word) text.now at) }
{
    let line = entry_line(text, at)?;
    if line.0[0] as usize != n {
        return None;
    }
    Some(line)
}

fn entry_lines(text: &[u8], at: usize) -> Run
    ensures { Ran (in_order (entry_form block_word)) text.now 512 at result.count result.next }
{
    run_of(at, 512, |n, i| Some(entry_of(text, i, n)?.1))
}

fn write_parts(text: &[u8], at: usize, parts: &mut [u16])
    requires { length (entry_rows (lines_of (drop at text.now))) ≤ length parts.old }
    ensures { parts.new ≡ over (column 1 (entry_rows (lines_of (drop at text.now)))) parts.old }
{
    write_entries(parts, at, 512, |n, i| {
        let line = entry_of(text, i, n)?;
        Some((line.0[1], line.1))
    });
}

// Reads a saved table into a list, or leaves it alone.
pub fn read_table(text: &[u8], parts: &mut [u16]) -> Result<SavedTable, TableError>
    ensures result_value { answer_of result ≡ table_answer (saved_in text.now) (length parts.old) }
    ensures parts_after { parts.new ≡ table_written (saved_in text.now) parts.old }
{
    let Some(line) = split_line(text, 0) else {
        return Err(TableError::BadLine(1));
    };
    let run = entry_lines(text, line.1);
    let n = run.count;
    let e = run.next;
    if e < text.len() {
        return Err(TableError::BadLine(n + 2));
    }
    if parts.len() < n {
        return Err(TableError::Short);
    }
    write_parts(text, line.1, parts);
    Ok(SavedTable {
        cut: line.0[0],
        rungs: line.0[1],
        cutat: line.0[2],
        moves: line.0[3],
        entries: n,
    })
}
