// The lines of the day types that are used. How long they are is reckoned first, in the same turns, so that a text without room is not begun.
ghost use Rattle.std.specs.Prelude.{◌≡◌, ◌+◌, ◌≤◌, length};
ghost use Rattle.format.specs.Answers.{Wrote};
ghost use Rattle.tariff.specs.Table.{slots_of, any_of};
ghost use Rattle.tariff.specs.Judge.{most_types};
ghost use Rattle.drawn.specs.Week.{switches, switch, switch_to, minutes_of_day, before, switch_text, time_text, times_to, names, type_line, types_to};

use lines::{NEWLINE, SPACE, put_word};
use tariff::{Entry, Kind, Table, slots};

const MINUTES_OF_HOUR: u32 = tariff::MINUTES as u32;

const MINUTES_OF_DAY: u32 = tariff::HOURS as u32 * MINUTES_OF_HOUR;

pub const TYPES: usize = tariff::MOST_TYPES as usize;

// The bytes of a switching time: its two before, hhmm, a space and the rate.
pub const TIME_TEXT: usize = 8;

// ---- what the table has

fn switches(daytype: u8, minute: u32, e: Entry) -> bool
    ensures { result ≡ switches daytype minute e }
{
    e.is(Kind::Time) & (e.daytype == daytype) & (tariff::minute(e) == minute)
}

fn switch(daytype: u8, minute: u32, e: Entry, rate: u8) -> u8
    ensures { result ≡ switch daytype minute e rate }
{
    if switches(daytype, minute, e) {
        return e.z;
    }
    rate
}

// The rate that a day type switches to at a minute, 0 where it does not.
fn switch_to(l: &Table, daytype: u8, minute: u32) -> u8
    ensures { result ≡ switch_to daytype minute (slots_of l.now) }
{
    slots::fold(l, 0, |rate, e| switch(daytype, minute, e, rate))
}

fn names(daytype: u8, e: Entry) -> bool
    ensures { result ≡ names daytype e }
{
    tariff::uses(e) & (e.daytype == daytype)
}

fn is_used(l: &Table, daytype: u8) -> bool
    ensures { result ≡ any_of (names daytype) (slots_of l.now) }
{
    slots::any(l, tariff::SLOTS, |e| names(daytype, e))
}

// ---- how long the lines are

fn time_length(daytype: u8, minute: u32, rate: u8) -> usize
    ensures { (result ≡ length (time_text daytype minute rate)) × (result ≤ 8) }
{
    if rate == 0 {
        return 0;
    }
    TIME_TEXT
}

fn times_length(l: &Table, daytype: u8) -> usize
    ensures { (result ≡ length (times_to (slots_of l.now) daytype minutes_of_day)) × (result ≤ 11520) }
{
    let mut n = 0;
    for m in 0..MINUTES_OF_DAY {
        n += time_length(daytype, m, switch_to(l, daytype, m));
    }
    n
}

fn type_length(l: &Table, daytype: u8) -> usize
    ensures { (result ≡ length (type_line (slots_of l.now) daytype)) × (result ≤ 11521) }
{
    if !is_used(l, daytype) {
        return 0;
    }
    times_length(l, daytype) + 1
}

// Of all day types.
pub fn lines_length(l: &Table) -> usize
    ensures { (result ≡ length (types_to (slots_of l.now) most_types)) × (result ≤ 92168) }
{
    let mut n = 0;
    for i in 0..tariff::MOST_TYPES {
        n += type_length(l, i + 1);
    }
    n
}

// ---- the lines written; what has no one length returns how many bytes it wrote

fn put_before(out: &mut [u8], at: usize, daytype: u8, minute: u32)
    requires { at + 2 ≤ length out.old }
    ensures { Wrote out.old at 2 (before daytype minute) out.new }
{
    if minute == 0 {
        put_word(out, at, 1, daytype as u64, SPACE);
        return;
    }
    format::put_bytes(out, at, b", ");
}

fn put_switch(out: &mut [u8], at: usize, daytype: u8, minute: u32, rate: u8)
    requires { at + 8 ≤ length out.old }
    ensures { Wrote out.old at 8 (switch_text daytype minute rate) out.new }
{
    let hour = minute / MINUTES_OF_HOUR;
    let clock = hour as u64 * 100 + (minute % MINUTES_OF_HOUR) as u64;
    put_before(out, at, daytype, minute);
    put_word(out, at + 2, 4, clock, SPACE);
    format::put_digits(out, at + 7, 1, rate as u64);
}

fn put_time(out: &mut [u8], at: usize, daytype: u8, minute: u32, rate: u8) -> usize
    requires { at + length (time_text daytype minute rate) ≤ length out.old }
    ensures { Wrote out.old at result (time_text daytype minute rate) out.new × (result ≤ 8) }
{
    if rate == 0 {
        return 0;
    }
    put_switch(out, at, daytype, minute, rate);
    TIME_TEXT
}

fn put_times(out: &mut [u8], at: usize, l: &Table, daytype: u8) -> usize
    requires { (at + length (times_to (slots_of l.now) daytype minutes_of_day) ≤ length out.old) }
    ensures { Wrote out.old at result (times_to (slots_of l.now) daytype minutes_of_day) out.new × (result ≤ 11520) }
{
    let mut n = 0;
    for m in 0..MINUTES_OF_DAY {
        n += put_time(out, at + n, daytype, m, switch_to(l, daytype, m));
    }
    n
}

fn put_type(out: &mut [u8], at: usize, l: &Table, daytype: u8) -> usize
    requires { (at + length (type_line (slots_of l.now) daytype) ≤ length out.old) }
    ensures { Wrote out.old at result (type_line (slots_of l.now) daytype) out.new × (result ≤ 11521) }
{
    if !is_used(l, daytype) {
        return 0;
    }
    let n = put_times(out, at, l, daytype);
    format::put_be(out, at + n, 1, NEWLINE);
    n + 1
}

pub fn put_lines(out: &mut [u8], at: usize, l: &Table)
    requires { (at + length (types_to (slots_of l.now) most_types) ≤ length out.old) }
    ensures { Wrote out.old at (length (types_to (slots_of l.now) most_types)) (types_to (slots_of l.now) most_types) out.new }
{
    let mut n = 0;
    for i in 0..tariff::MOST_TYPES {
        n += put_type(out, at + n, l, i + 1);
    }
}
