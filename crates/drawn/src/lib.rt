// A week of a switching table as text (docs/TARIFF.md, "A week drawn"), written into a lent buffer.
// A text that does not fit is not begun: the buffer stays as it was.
#![tactic(auto)]

ghost use Rattle.std.specs.Prelude.{◌≡◌, ◌+◌, ◌<◌, ◌≤◌, MatchResult, length};
ghost use Rattle.std.proofs.lemmas.List.Edits.{sets};
ghost use Rattle.laws.specs.Table.{table};
ghost use Rattle.answers.specs.Answer.{answered};
ghost use Rattle.block.specs.Answers.{answer};
ghost use Rattle.calendar.specs.Calendar.{days_in_all};
ghost use Rattle.calendar.specs.Clock.{halves_of_day, times_in_all};
ghost use Rattle.format.specs.Answers.{Wrote};
ghost use Rattle.lines.specs.Listing.{shown, shown_length};
ghost use Rattle.tariff.specs.Table.{days_of_week};
ghost use Rattle.drawn.specs.Week.{last_drawn, minutes_of_half, changes, mark_at, half_mark, day_head, day_line, days_to, week_text};
ghost use Rattle.drawn.specs.Asked.{week_judged, room_answer, week_answer, week_shown, day_asked, drawn_from, drawn_of};

mod types;

use answers::Refusal;
use tariff::Table;

const PLUS: u8 = 43;

// The last day from which seven can be drawn.
const LAST_DRAWN: u32 = calendar::DAYS_IN_ALL - tariff::DAYS_OF_WEEK as u32;

const MINUTES_OF_HALF: u64 = calendar::SECONDS_OF_HALF / tariff::SECONDS_OF_MINUTE;

const HALVES: usize = calendar::HALVES as usize;

// Of a day's line: the bytes before its half-hours, before its newline, and all.
const DAY_HEAD: usize = 11;

const DAY_END: usize = DAY_HEAD + HALVES;

const DAY_LINE: usize = DAY_END + 1;

const DAYS: usize = DAY_LINE * tariff::DAYS_OF_WEEK as usize;

// The longest text: the days, each switching time that a table may have, and a newline behind each day type.
pub const LONGEST_WEEK: usize = DAYS
    + types::TIME_TEXT * tariff::MOST_TIMES as usize
    + types::TYPES;

// What the program takes before the table's bytes: YYMMDD and a newline.
const DATE_DIGITS: usize = 6;

pub const ASKED: usize = DATE_DIGITS + 1;

// ---- a day

// Whether the rate changes in the half-hour from second t on.
fn changes(l: &Table, t: u64) -> bool
    requires { t < times_in_all }
    ensures { result ≡ changes l.now t minutes_of_half }
{
    let first = tariff::rate_at(l, t);
    let mut found = false;
    for n in 0..MINUTES_OF_HALF {
        let rate = tariff::rate_at(l, t + n * tariff::SECONDS_OF_MINUTE);
        found |= rate != first;
    }
    found
}

fn mark(l: &Table, t: u64) -> u8
    requires { t < times_in_all }
    ensures { result ≡ mark_at l.now t }
{
    if changes(l, t) {
        return PLUS;
    }
    (48 + tariff::rate_at(l, t) % 10) as u8
}

fn put_head(out: &mut [u8], at: usize, l: &Table, d: u32)
    requires { (at + 11 ≤ length out.old) × (d < days_in_all) }
    ensures { Wrote out.old at 11 (day_head l.now d) out.new }
{
    let date = calendar::date_digits(d);
    let week = tariff::weekday(d);
    let daytype = tariff::day_type(l, d);
    lines::put_word(out, at, DATE_DIGITS, date as u64, lines::SPACE);
    lines::put_word(out, at + 7, 1, week as u64, lines::SPACE);
    lines::put_word(out, at + 9, 1, daytype as u64, lines::SPACE);
}

fn put_halves(out: &mut [u8], at: usize, l: &Table, d: u32)
    requires { (at + 48 ≤ length out.old) × (d < days_in_all) }
    ensures { out.new ≡ sets out.old at (table halves_of_day (half_mark l.now d)) }
{
    for j in 0..HALVES {
        let t = d as u64 * calendar::SECONDS_OF_DAY + j as u64 * calendar::SECONDS_OF_HALF;
        out[at + j] = mark(l, t);
    }
}

fn put_day(out: &mut [u8], at: usize, l: &Table, d: u32)
    requires { (at + 60 ≤ length out.old) × (d < days_in_all) }
    ensures { Wrote out.old at 60 (day_line l.now d) out.new }
{
    put_head(out, at, l, d);
    put_halves(out, at + DAY_HEAD, l, d);
    format::put_be(out, at + DAY_END, 1, lines::NEWLINE);
}

fn put_days(out: &mut [u8], l: &Table, d: u32)
    requires { (420 ≤ length out.old) × (d ≤ last_drawn) }
    ensures { Wrote out.old 0 420 (days_to l.now d days_of_week) out.new }
{
    for i in 0..tariff::DAYS_OF_WEEK as usize {
        put_day(out, DAY_LINE * i, l, d + i as u32);
    }
}

// ---- the week

// The table, where a week can be drawn of it from that day on: 6 for the day, then 6 and 14 of the table.
fn table_at(l: &[u8], day: u32) -> Result<&Table, Refusal>
    ensures { MatchResult result (λ t. (t.now ≡ l.now) × (week_judged l.now day ≡ 0)) (λ r. answered (Err r) ≡ answer (week_judged l.now day) 0) }
{
    if LAST_DRAWN < day {
        return Err(Refusal::Range);
    }
    tariff::judge(l)?;
    l.as_array().ok_or(Refusal::Range)
}

fn put_week(out: &mut [u8], l: &Table, d: u32)
    requires { (length (week_text l.now d) ≤ length out.old) × (d ≤ last_drawn) }
    ensures { out.new ≡ sets out.old 0 (week_text l.now d) }
{
    put_days(out, l, d);
    types::put_lines(out, DAYS, l);
}

// The text, where it has room.
fn fit(l: &Table, d: u32, out: &mut [u8]) -> Result<u32, Refusal>
    requires { d ≤ last_drawn }
    ensures { (out.new ≡ shown out.old (week_text l.now d)) × (answered result ≡ room_answer (length (week_text l.now d)) (length out.old)) }
{
    let n = DAYS + types::lines_length(l);
    if out.len() < n {
        return Err(Refusal::Short(n as u32));
    }
    put_week(out, l, d);
    Ok(n as u32)
}

// The seven days from a day on, and the day types: 6, 14, 7 with the bytes of the text, or done with them.
pub fn week(l: &[u8], day: u32, out: &mut [u8]) -> Result<u32, Refusal>
    ensures { (out.new ≡ week_shown l.now day out.old) × (answered result ≡ week_answer l.now day (length out.old)) }
{
    fit(table_at(l, day)?, day, out)
}

// ---- the program

// The day that the input asks for.
#[tactic(auto, unfolding(crate::specs::Asked::day_asked))]
fn day_asked(input: &[u8]) -> Option<u32>
    ensures { result ≡ day_asked input.now }
{
    if input.len() < ASKED || u64::from(input[DATE_DIGITS]) != lines::NEWLINE {
        return None;
    }
    let date = format::spelt(input, 0, DATE_DIGITS)?;
    calendar::day_on(date as u32)
}

fn drawn_from(l: &[u8], day: u32, out: &mut [u8]) -> usize
    ensures { (out.new ≡ shown out.old (drawn_from l.now (Some day))) × (result ≡ shown_length out.old (drawn_from l.now (Some day))) × (result ≤ length out.old) }
{
    match table_at(l, day) {
        Ok(table) => fit(table, day, out).unwrap_or(0) as usize,
        Err(r) => lines::refused(out, r.number()),
    }
}

// What the program prints for its input; how many bytes that are, or 0 where they do not fit.
pub fn drawn(input: &[u8], out: &mut [u8]) -> usize
    ensures { (out.new ≡ shown out.old (drawn_of input.now)) × (result ≡ shown_length out.old (drawn_of input.now)) × (result ≤ length out.old) }
{
    let Some(d) = day_asked(input) else {
        return lines::refused(out, Refusal::Range.number());
    };
    drawn_from(&input[ASKED..], d, out)
}
