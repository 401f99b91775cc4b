// Reading an input to its end, or to one byte more than a kit text may have.
ghost use Rattle.std.specs.Prelude.{◌≡◌, ◌≤◌, IfOk, length};

use std::io;
use std::io::Read;

pub const SPACE: usize = 65_537;

// One read, after the bytes that are there already, and how many are there then.
// stays: a buffer and how much of it is filled, since there is no heap.
fn read_more(from: &mut impl Read, buf: &mut [u8], at: usize) -> io::Result<usize>
    ensures kept { length buf.new ≡ length buf.old }
    ensures within { IfOk result (λ n. n ≤ length buf.old) }
{
    if at >= buf.len() {
        return Ok(buf.len());
    }
    let got = from.read(&mut buf[at..])?;
    Ok(at + got)
}

// The bytes that were read. A failed read is not the end of the input.
pub fn read_all<'b>(from: &mut impl Read, buf: &'b mut [u8]) -> io::Result<&'b [u8]>
    ensures within { IfOk result (λ s. length s.now ≤ length buf.old) }
{
    let mut at = 0;
    // Each turn but the last gets a byte or more, so no run uses up the turns.
    for _ in 0..=buf.len() {
        let to = read_more(from, buf, at)?;
        if to == at {
            break;
        }
        at = to;
    }
    Ok(&buf[..at])
}
