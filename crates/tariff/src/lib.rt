// A switching table in one lent byte slice (docs/TARIFF.md): judged when it is loaded, and asked for the rate at a second. The rate is found by two passes over the 88 slots, however much
// time has gone by.
#![tactic(auto)]

ghost use Rattle.std.specs.Prelude.{◌≡◌, ◌<◌, ◌≤◌, MatchOption, nat_eq};
ghost use Rattle.answers.specs.Answer.{judged_as};
ghost use Rattle.calendar.specs.Calendar.{days_in_all};
ghost use Rattle.tariff.specs.Table.{days_of_week, slot_count, slot_at, slots_of, default, byte_of_kind, minute_of};
ghost use Rattle.tariff.specs.Judge.{uses, names_above, judged};
ghost use Rattle.tariff.specs.Rate.{weekday_of, today_of, day_type, covers, ruled, applies, mark_of, latest, rate_in, rate_at};
ghost use Rattle.tariff.specs.Scans.{ruler_of, outranked, force_of, followed};

mod entries;
mod judged;
pub mod slots;

use answers::Refusal;

pub const MOST_TIMES: u32 = 48;

const MOST_EXCEPTIONS: u32 = 32;

pub const DAYS_OF_WEEK: u8 = 7;

// That many switching times and exceptions, an entry for each weekday, and the default.
pub const SLOTS: usize = MOST_TIMES as usize + MOST_EXCEPTIONS as usize + DAYS_OF_WEEK as usize + 1;

pub const SLOT: usize = 5;

pub const TABLE: usize = SLOT * SLOTS;

pub type Table = [u8; TABLE];

pub const MOST_TYPES: u8 = 8;

pub const EVERY_YEAR: u8 = 100;

pub const HOURS: u8 = 24;

pub const MINUTES: u8 = 60;

pub const SECONDS_OF_MINUTE: u64 = 60;

// 2000-01-01 was a Saturday: so many days after a Monday.
const SINCE_MONDAY: u32 = 5;

// The kinds of entries in the order of their bytes, a lower one ranking higher among those that cover days.
#[derive(Clone, Copy, PartialEq, Eq, Debug)]
pub enum Kind {
    Unused,
    Time,
    Exception,
    Weekdays,
    Default,
}

pub const UNUSED: u8 = Kind::Unused as u8;

pub const TIME: u8 = Kind::Time as u8;

pub const EXCEPTION: u8 = Kind::Exception as u8;

pub const WEEKDAYS: u8 = Kind::Weekdays as u8;

pub const DEFAULT: u8 = Kind::Default as u8;

// A slot's five bytes, of any values.
#[derive(Clone, Copy)]
pub struct Entry {
    pub kind: u8,
    pub daytype: u8,
    pub x: u8,
    pub y: u8,
    pub z: u8,
}

// A day's date and its weekday, Monday 1.
#[derive(Clone, Copy)]
pub struct Today {
    pub yy: u32,
    pub mm: u32,
    pub dd: u32,
    pub week: u32,
}

// ---- one entry

pub fn slot(l: &Table, i: usize) -> Entry
    requires { i < slot_count }
    ensures { result ≡ slot_at l.now i }
{
    let at = SLOT * i;
    Entry {
        kind: l[at],
        daytype: l[at + 1],
        x: l[at + 2],
        y: l[at + 3],
        z: l[at + 4],
    }
}

impl Entry {
    // None where the byte is no kind's.
    pub fn kind(self) -> Option<Kind>
        ensures { MatchOption result (default < self.kind) (λ kind. self.kind ≡ byte_of_kind kind) }
    {
        match self.kind {
            UNUSED => Some(Kind::Unused),
            TIME => Some(Kind::Time),
            EXCEPTION => Some(Kind::Exception),
            WEEKDAYS => Some(Kind::Weekdays),
            DEFAULT => Some(Kind::Default),
            _ => None,
        }
    }

    pub fn is(self, kind: Kind) -> bool
        ensures { result ≡ nat_eq self.kind (byte_of_kind kind) }
    {
        self.kind == kind as u8
    }
}

// The minute of the day of a switching time.
#[tactic(auto, unfolding(crate::specs::Table::minute_of))]
pub fn minute(e: Entry) -> u32
    ensures { (result ≡ minute_of e) × (result ≤ 15555) }
{
    e.x as u32 * MINUTES as u32 + e.y as u32
}

// Whether it gives days a day type.
pub fn uses(e: Entry) -> bool
    ensures { result ≡ uses e }
{
    matches!(
        e.kind(),
        Some(Kind::Exception | Kind::Weekdays | Kind::Default)
    )
}

#[tactic(auto, unfolding(crate::specs::Rate::covers))]
fn covers(k: Today, e: Entry) -> bool
    ensures { result ≡ covers k e }
{
    match e.kind() {
        Some(Kind::Exception) => ((e.x == EVERY_YEAR) | (e.x as u32 == k.yy))
            & (e.y as u32 == k.mm)
            & (e.z as u32 == k.dd),
        Some(Kind::Weekdays) => (e.x as u32 <= k.week) & (k.week <= e.y as u32),
        Some(Kind::Default) => true,
        _ => false,
    }
}

// ---- the whole table

// Whether a load takes it: 6, 14, or done.
#[tactic(auto, unfolding(crate::specs::Judge::judged))]
pub fn judge(l: &[u8]) -> Result<(), Refusal>
    ensures { judged_as result ≡ judged l.now }
{
    let table = l.as_array().ok_or(Refusal::Range)?;
    if !judged::is_sound(table) {
        return Err(Refusal::Range);
    }
    if judged::any_clash(table) {
        return Err(Refusal::Clash);
    }
    Ok(())
}

// Whether some switching time names a rate above n.
#[tactic(auto, unfolding(crate::specs::Judge::names_above))]
pub fn names_above(l: &[u8], n: u32) -> bool
    ensures { result ≡ names_above n l.now }
{
    let Some(table) = l.as_array() else {
        return false;
    };
    judged::any_above(table, n)
}

// ---- the rate

// Monday is 1.
pub fn weekday(d: u32) -> u32
    requires { d < days_in_all }
    ensures { (result ≡ weekday_of d) × (result ≤ days_of_week) }
{
    (d + SINCE_MONDAY) % DAYS_OF_WEEK as u32 + 1
}

#[tactic(auto, unfolding(crate::specs::Rate::today_of))]
fn day_key(d: u32) -> Today
    requires { d < days_in_all }
    ensures { result ≡ today_of d }
{
    let date = calendar::date_of_day(d);
    Today {
        yy: date.yy,
        mm: date.mm,
        dd: date.dd,
        week: weekday(d),
    }
}

fn mark(e: Entry) -> u32
    ensures { result ≡ mark_of e }
{
    if e.is(Kind::Time) { minute(e) + 1 } else { 0 }
}

#[tactic(auto, unfolding(crate::specs::Rate::applies))]
fn applies(daytype: u8, clock: u32, e: Entry) -> bool
    ensures { result ≡ applies daytype clock e }
{
    e.is(Kind::Time) && e.daytype == daytype && minute(e) <= clock
}

// Of the entry that rules, what matters: two numbers, so that the scan keeps them in registers.
#[derive(Clone, Copy)]
pub struct Ruler {
    pub kind: u8,
    pub daytype: u8,
}

#[tactic(auto, unfolding(crate::specs::Scans::outranked))]
fn outranked(k: Today, e: Entry, best: Ruler) -> Ruler
    ensures { result ≡ outranked k e best }
{
    if e.kind < best.kind && covers(k, e) {
        Ruler {
            kind: e.kind,
            daytype: e.daytype,
        }
    } else {
        best
    }
}

fn ruling(l: &Table, k: Today) -> Ruler
    ensures { result ≡ ruler_of (ruled k (slots_of l.now)) }
{
    let nobody = Ruler {
        kind: DEFAULT + 1,
        daytype: 0,
    };
    slots::fold(l, nobody, |best, e| outranked(k, e, best))
}

// Of the switching time in force, in the same way.
#[derive(Clone, Copy)]
pub struct Force {
    pub mark: u32,
    pub rate: u8,
}

#[tactic(auto, unfolding(crate::specs::Scans::followed))]
fn followed(daytype: u8, clock: u32, e: Entry, best: Force) -> Force
    ensures { result ≡ followed daytype clock e best }
{
    if applies(daytype, clock, e) && best.mark < mark(e) {
        Force {
            mark: mark(e),
            rate: e.z,
        }
    } else {
        best
    }
}

fn in_force(l: &Table, daytype: u8, clock: u32) -> Force
    ensures { result ≡ force_of (latest daytype clock (slots_of l.now)) }
{
    let nothing = Force { mark: 0, rate: 0 };
    slots::fold(l, nothing, |best, e| followed(daytype, clock, e, best))
}

// The type of a day.
pub fn day_type(l: &Table, d: u32) -> u8
    requires { d < days_in_all }
    ensures { result ≡ day_type l.now d }
{
    ruling(l, day_key(d)).daytype
}

// The rate at a second, 0 where there is no table or no such second. All in one function: a Clock with a table takes a sixth longer where the second half is one of its own.
#[tactic(auto, unfolding(crate::specs::Rate::rate_at, crate::specs::Rate::rate_in))]
pub fn rate_at(l: &[u8], t: u64) -> u32
    ensures { result ≡ rate_at l.now t }
{
    let Some(table) = l.as_array() else {
        return 0;
    };
    if calendar::TIMES_IN_ALL <= t {
        return 0;
    }
    let d = (t / calendar::SECONDS_OF_DAY) as u32;
    let daytype = day_type(table, d);
    let m = (t % calendar::SECONDS_OF_DAY / SECONDS_OF_MINUTE) as u32;
    in_force(table, daytype, m).rate as u32
}
