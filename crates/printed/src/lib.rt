// Answers as lines of an output: numbers, an answer with what it carries, bytes in hexadecimal, a block's listing. Each is there twice: so that the output's
// error is handed back, and nothing is written after it; and, as `put_..`, so that it can't fail.
#![tactic(auto)]

ghost use Rattle.std.specs.Prelude.{OnOk, IfSome};
ghost use Rattle.std.specs.Io.KnownBytes.{Appends};
ghost use Rattle.lines.specs.Listing.{listing_of};
ghost use Rattle.printed.specs.Lines.{answer_line, unread_line, then_text, hex_line};

use std::fmt::Display;
use std::io::{self, Write};

// A text has room for the longest listing. Bytes in hexadecimal are printed in parts that fill it.
const TEXT: usize = lines::LONGEST_TEXT;

const PART: usize = TEXT / 2;

// An answer and what it carries, one number as the library for C has it.
pub fn answer<W: Write>(out: &mut W, answer: u64) -> io::Result<()>
    ensures { OnOk result (Appends (W.contents out.old) (W.contents out.new) (answer_line answer)) }
{
    writeln!(out, "{} {}", answer / desk::ANSWER, answer % desk::ANSWER)
}

pub fn put_answer<W: Write>(out: &mut W, answer: u64) {
    let _ = self::answer(out, answer);
}

// The line with this number can't be understood.
pub fn unread<W: Write>(out: &mut W, line: u64) -> io::Result<()>
    ensures { OnOk result (Appends (W.contents out.old) (W.contents out.new) (unread_line line)) }
{
    writeln!(out, "? {line}")
}

pub fn put_unread<W: Write>(out: &mut W, line: u64) {
    let _ = unread(out, line);
}

// Numbers, each behind a space.
pub fn then_all<W: Write, T: Display>(out: &mut W, row: &[T]) -> io::Result<()>
    ensures { OnOk result (IfSome (then_text T.output row.now) (Appends (W.contents out.old) (W.contents out.new))) }
{
    for x in row {
        write!(out, " {x}")?;
    }
    Ok(())
}

// The same, and it can't fail: each number is tried, also behind one that the output did not take.
pub fn put_all<W: Write, T: Display>(out: &mut W, row: &[T]) {
    for x in row {
        let _ = write!(out, " {x}");
    }
}

// In hexadecimal, and the end of the line.
pub fn hex<W: Write>(out: &mut W, bytes: &[u8]) -> io::Result<()>
    ensures { OnOk result (Appends (W.contents out.old) (W.contents out.new) (hex_line bytes.now)) }
{
    let mut text = [0u8; TEXT];
    for part in bytes.chunks(PART) {
        let n = script::hex(part, &mut text);
        out.write_all(&text[..n])?;
    }
    writeln!(out)
}

// One part, whose text is made here, so that nothing is cleared where there is none.
#[inline(never)]
fn hex_part<W: Write>(out: &mut W, part: &[u8]) {
    let mut text = [0u8; TEXT];
    let n = script::hex(part, &mut text);
    let _ = out.write_all(&text[..n]);
}

// The same, and it can't fail: each part is tried, and the end of the line, also behind one that the output did not take.
pub fn put_hex<W: Write>(out: &mut W, bytes: &[u8]) {
    for part in bytes.chunks(PART) {
        hex_part(out, part);
    }
    let _ = writeln!(out);
}

pub fn listing<W: Write>(out: &mut W, block: &[u8]) -> io::Result<()>
    ensures { OnOk result (Appends (W.contents out.old) (W.contents out.new) (listing_of block.now)) }
{
    let mut text = [0u8; TEXT];
    let n = lines::listed(block, &mut text);
    out.write_all(&text[..n])
}

pub fn put_listing<W: Write>(out: &mut W, block: &[u8]) {
    let _ = listing(out, block);
}

#[cfg(test)]
mod tests;
