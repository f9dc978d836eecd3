// What a line shows and does not change: a recorder and a room of its store in decimal, a block, the ledger, a switching table. A line is understood where what it shows
// is there.
use commands::Shown;
use memory::{Memory, Outstation};
use std::io::Write;

// ---- the outstation's row but for its letters; and its phases, of which the last number tells whether it is one

fn recorder<W: Write>(outstation: &Outstation, out: &mut W) {
    let row = &outstation.row;
    let phases = if row[station::SINGLE] == 1 { 1 } else { 3 };
    let _ = write!(out, "{}", row[rows::CLASS]);
    printed::put_all(out, &row[rows::WEIGHT..station::SINGLE]);
    let _ = writeln!(out, " {phases}");
}

// ---- a room of the store

// The room of a day: none where there are none, or it does not lie in the store as it is lent.
fn room_of(day: u32, outstation: &Outstation) -> Option<usize> {
    let room = day.checked_rem(outstation.class().days())? as usize;
    let lent = outstation.lent.lengths();
    let is_lent = room < lent.values / block::HALVES
        && room < lent.starts
        && room < lent.marks / marks::DAY_WORDS;
    if is_lent { Some(room) } else { None }
}

// Its start, its flags, its two words of marks, its values.
fn room<W: Write>(room: usize, outstation: &Outstation, out: &mut W) {
    let d = room % memory::STORE_DAYS;
    let words = &outstation.marks[marks::DAY_WORDS * d..marks::DAY_WORDS * d + marks::DAY_WORDS];
    let values = &outstation.values[block::HALVES * d..block::HALVES * d + block::HALVES];
    let _ = write!(out, "{} {}", outstation.starts[d], words[marks::FLAGS_WORD]);
    printed::put_all(out, &words[..marks::FLAGS_WORD]);
    printed::put_all(out, values);
    let _ = writeln!(out);
}

fn day<W: Write>(day: u32, outstation: &Outstation, out: &mut W) -> bool {
    let Some(room) = room_of(day, outstation) else {
        return false;
    };
    self::room(room, outstation, out);
    true
}

// ---- the ledger

fn summary<W: Write>(ledger: &[u8], day: u32, out: &mut W) {
    let mut numbers = [0u64; desk::SUMMARY];
    let answer = desk::cop6_summary(ledger, day, &mut numbers);
    let _ = write!(out, "{}", answer / desk::ANSWER);
    printed::put_all(out, &numbers);
    let _ = writeln!(out);
}

fn missing<W: Write>(ledger: &[u8], day: u32, out: &mut W) {
    let _ = match ledger::missing(ledger, day) {
        Ok(m) => writeln!(out, "0 {} {}", m.first, m.count),
        Err(r) => writeln!(out, "{} 0 0", r.number()),
    };
}

// ---- a switching table

// The week drawn, or why it is refused.
fn week<W: Write>(table: &[u8], day: u32, out: &mut W) {
    let mut text = [0u8; drawn::LONGEST_WEEK];
    let n = match drawn::week(table, day, &mut text) {
        Ok(n) => n as usize,
        Err(r) => lines::refused(&mut text, r.number()),
    };
    let _ = out.write_all(parts::part(&text, 0, n));
}

// ---- a line

pub fn shown<W: Write>(what: Shown, memory: &Memory, out: &mut W) -> bool {
    let outstation = &memory.outstation;
    let block = memory.blocks.current.bytes();
    let ledger = memory.ledger.bytes();
    match what {
        Shown::Day(day) => return self::day(day, outstation, out),
        Shown::Recorder => recorder(outstation, out),
        Shown::Block => printed::put_hex(out, block),
        Shown::Check => printed::put_answer(out, desk::cop6_read(block)),
        Shown::Listing => printed::put_listing(out, block),
        Shown::Ledger => printed::put_hex(out, ledger),
        Shown::Summary(day) => summary(ledger, day, out),
        Shown::Missing(day) => missing(ledger, day, out),
        Shown::Table => printed::put_hex(out, outstation.lent_table()),
        Shown::RateAt(time) => {
            let rate = tariff::rate_at(outstation.lent_table(), time);
            printed::put_answer(out, u64::from(rate));
        }
        Shown::Week(day) => week(parts::part(&memory.editor, 0, tariff::TABLE), day, out),
    }
    true
}
