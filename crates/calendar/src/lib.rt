// Days, dates and seconds of 2000-01-01 00:00:00 to 2099-12-31 23:59:59, as numbers, as fields and as decimal digits.
// A day's date is found by formulas, a date's day by a formula and a table: neither walks. Every public function has an answer for every input.
#![tactic(auto)]

ghost use Rattle.std.specs.Prelude.{◌≡◌, ◌+◌, ◌*◌, ◌<◌, ◌≤◌};
ghost use Rattle.laws.specs.Tests.{sum_below};
ghost use Rattle.calendar.specs.Calendar.{days_in_all, leap_day, year_length, month_length, place, day_of, date_of};
ghost use Rattle.calendar.specs.Shift.{shift};
ghost use Rattle.calendar.specs.Clock.{second_of, stamp_of, ended_at, ended_on};
ghost use Rattle.calendar.specs.Digits.{date_digits, time_digits, day_on, seconds_on};

#[derive(Clone, Copy)]
pub struct Date {
    pub yy: u32,
    pub mm: u32,
    pub dd: u32,
}

// A date and a time of day.
#[derive(Clone, Copy)]
pub struct Stamp {
    pub yy: u32,
    pub mm: u32,
    pub dd: u32,
    pub hh: u32,
    pub mi: u32,
    pub ss: u32,
}

// The length that a number falls in, of lengths in a row, and its place there.
#[derive(Clone, Copy)]
pub struct Spot {
    pub which: u32,
    pub rest: u32,
}

pub const DAYS_IN_ALL: u32 = 36525;

pub const HALVES: u32 = 48;

pub const SECONDS_OF_HALF: u64 = 1800;

pub const SECONDS_OF_DAY: u64 = HALVES as u64 * SECONDS_OF_HALF;

pub const TIMES_IN_ALL: u64 = DAYS_IN_ALL as u64 * SECONDS_OF_DAY;

// Of the months of a common year, and the days before each of them.
const LENGTHS: [u32; 12] = [31, 28, 31, 30, 31, 30, 31, 31, 30, 31, 30, 31];

const DAYS_BEFORE: [u32; 12] = [0, 31, 59, 90, 120, 151, 181, 212, 243, 273, 304, 334];

#[tactic(auto, using(laws::proofs::Bits::bit_from), unfolding(crate::specs::Calendar::leap_day, laws::specs::Bits::bit))]
fn leap_day(yy: u32) -> u32
    ensures { (result ≡ leap_day yy) × (result ≤ 1) }
{
    u32::from(yy % 4 == 0)
}

// Of month i, counted from 0.
fn month_length(yy: u32, i: usize) -> u32
    ensures { (result ≡ month_length yy i) × (result ≤ 31) }
{
    if i == 1 {
        return 28 + leap_day(yy);
    }
    if i < 12 {
        return LENGTHS[i];
    }
    0
}

// The days of four years.
const FOUR_YEARS: u32 = 1461;

// The year of a day, and the day's place in it. 2000 is a leap year and leads its four: the formula for a leap year that ends its four is another.
fn year_at(d: u32) -> Spot
    requires { d < days_in_all }
    ensures { (result ≡ place year_length 99 0 d) × (result.which ≤ 99) × (result.rest ≤ d) }
{
    let y = 4 * d / FOUR_YEARS;
    Spot {
        which: y,
        rest: d - days_before_year(y),
    }
}

// Where a day of a year with l days more than 365 comes to stand, as though February had 30.
fn shifted(l: u32, n: u32) -> u32
    requires { (l ≤ 1) × (n < 366) }
    ensures { (result ≡ shift l n) × (result ≤ 368) }
{
    if n < DAYS_BEFORE[2] + l {
        n
    } else {
        n + (2 - l)
    }
}

// The month of a day of a year, counted from 0, and the day's place in it: with a February of 30 days, (367 i + 5) / 12 days are before month i.
fn month_at(yy: u32, d: u32) -> Spot
    requires { d < year_length yy }
    ensures { (result ≡ place (month_length yy) 11 0 d) × (result.which ≤ 11) × (result.rest ≤ d) }
{
    let s = shifted(leap_day(yy), d);
    let i = (12 * s + 6) / 367;
    Spot {
        which: i,
        rest: s - (367 * i + 5) / 12,
    }
}

// The date of a day number, and all zeros past the calendar's end.
pub fn date_of_day(d: u32) -> Date
    ensures { (result ≡ date_of d) × (result.yy ≤ 99) × (result.mm ≤ 12) × (result.dd ≤ 31) }
{
    if DAYS_IN_ALL <= d {
        return Date {
            yy: 0,
            mm: 0,
            dd: 0,
        };
    }
    let y = year_at(d);
    let m = month_at(y.which, y.rest);
    Date {
        yy: y.which,
        mm: m.which + 1,
        dd: m.rest + 1,
    }
}

// The days before month i, counted from 0.
fn days_before_month(yy: u32, i: u32) -> u32
    requires { i < 12 }
    ensures { (result ≡ sum_below (month_length yy) i) × (result ≤ 341) }
{
    let common = DAYS_BEFORE[i as usize];
    if i < 2 {
        return common;
    }
    common + leap_day(yy)
}

fn days_before_year(yy: u32) -> u32
    requires { yy < 100 }
    ensures { (result ≡ sum_below year_length yy) × (result ≤ 36234) }
{
    365 * yy + (yy + 3) / 4
}

// The day number of a date, if it is real.
pub fn day_of_date(yy: u32, mm: u32, dd: u32) -> Option<u32>
    ensures { result ≡ day_of yy mm dd }
{
    if 100 <= yy {
        return None;
    }
    if mm < 1 {
        return None;
    }
    if 12 < mm {
        return None;
    }
    if dd < 1 {
        return None;
    }
    let i = mm - 1;
    if month_length(yy, i as usize) < dd {
        return None;
    }
    Some(days_before_year(yy) + days_before_month(yy, i) + (dd - 1))
}

// The date and the time of day of a second, and all zeros past the calendar's end.
pub fn stamp_of(t: u64) -> Stamp
    ensures { (result ≡ stamp_of t) × (result.yy ≤ 99) × (result.mm ≤ 12) × (result.dd ≤ 31) × (result.hh < 24) × (result.mi < 60) × (result.ss < 60) }
{
    if TIMES_IN_ALL <= t {
        return Stamp {
            yy: 0,
            mm: 0,
            dd: 0,
            hh: 0,
            mi: 0,
            ss: 0,
        };
    }
    let d = date_of_day((t / SECONDS_OF_DAY) as u32);
    let s = t % SECONDS_OF_DAY;
    Stamp {
        yy: d.yy,
        mm: d.mm,
        dd: d.dd,
        hh: (s / 3600) as u32,
        mi: (s % 3600 / 60) as u32,
        ss: (s % 60) as u32,
    }
}

// The second of a date and a time of day, if they are real.
pub fn second_of(s: Stamp) -> Option<u64>
    ensures { result ≡ second_of s }
{
    let d = day_of_date(s.yy, s.mm, s.dd)?;
    if 24 <= s.hh {
        return None;
    }
    if 60 <= s.mi {
        return None;
    }
    if 60 <= s.ss {
        return None;
    }
    Some(seconds(d, s.hh, s.mi, s.ss))
}

fn seconds(d: u32, hh: u32, mi: u32, ss: u32) -> u64
    ensures { result ≡ d * 86400 + hh * 3600 + mi * 60 + ss }
{
    d as u64 * SECONDS_OF_DAY + hh as u64 * 3600 + mi as u64 * 60 + ss as u64
}

// How many half-hours of its own day have ended at t.
pub fn ended_at(t: u64) -> u32
    ensures { (result ≡ ended_at t) × (result < 48) }
{
    (t % SECONDS_OF_DAY / SECONDS_OF_HALF) as u32
}

// How many half-hours of day d have ended at t; none of a day after t's.
pub fn ended(t: u64, d: u32) -> u32
    ensures { (result ≡ ended_on t d) × (result ≤ 48) }
{
    let today = t / SECONDS_OF_DAY;
    if (d as u64) < today {
        return HALVES;
    }
    if d as u64 == today {
        return ended_at(t);
    }
    0
}

// YYMMDD of a day number, and 0 past the calendar's end.
pub fn date_digits(d: u32) -> u32
    ensures { (result ≡ date_digits (date_of d)) × (result < 1000000) }
{
    let a = date_of_day(d);
    a.yy * 10000 + a.mm * 100 + a.dd
}

// The day that YYMMDD names, if it names one.
pub fn day_on(x: u32) -> Option<u32>
    ensures { result ≡ day_on x }
{
    day_of_date(x / 10000, x / 100 % 100, x % 100)
}

// YYMMDDhhmmss of a second, and 0 past the calendar's end.
pub fn time_digits(t: u64) -> u64
    ensures { (result ≡ time_digits t) × (result < 1000000000000) }
{
    let s = stamp_of(t);
    let date = s.yy * 10000 + s.mm * 100 + s.dd;
    let clock = s.hh * 10000 + s.mi * 100 + s.ss;
    date as u64 * 1000000 + clock as u64
}

// The second that YYMMDDhhmmss names, if it names one.
pub fn time_on(x: u64) -> Option<u64>
    ensures { result ≡ seconds_on x }
{
    let date = x / 1000000;
    let clock = x % 1000000;
    second_of(Stamp {
        yy: (date / 10000) as u32,
        mm: (date / 100 % 100) as u32,
        dd: (date % 100) as u32,
        hh: (clock / 10000) as u32,
        mi: (clock / 100 % 100) as u32,
        ss: (clock % 100) as u32,
    })
}
