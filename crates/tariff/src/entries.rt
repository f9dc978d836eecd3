// What a load asks of one entry, or of two.
ghost use Rattle.std.specs.Prelude.{◌≡◌};
ghost use Rattle.tariff.specs.Judge.{year_of, date_ok, entry_ok, opens, clash, above};

use crate::{DAYS_OF_WEEK, EVERY_YEAR, Entry, HOURS, Kind, MINUTES, MOST_TYPES, minute};

// The date of every year has to be real in this one.
const LEAP_YEAR: u32 = 0;

fn year(e: Entry) -> u32
    ensures { result ≡ year_of e }
{
    if e.x == EVERY_YEAR {
        LEAP_YEAR
    } else {
        e.x as u32
    }
}

#[tactic(auto, unfolding(crate::specs::Judge::date_ok))]
fn date_ok(e: Entry) -> bool
    ensures { result ≡ date_ok e }
{
    calendar::day_of_date(year(e), e.y as u32, e.z as u32).is_some()
}

#[tactic(auto, unfolding(crate::specs::Judge::entry_ok))]
pub fn entry_ok(e: Entry) -> bool
    ensures { result ≡ entry_ok e }
{
    let rest = (e.x == 0) & (e.y == 0) & (e.z == 0);
    let typed = (1 <= e.daytype) & (e.daytype <= MOST_TYPES);
    match e.kind() {
        Some(Kind::Unused) => (e.daytype == 0) & rest,
        Some(Kind::Time) => typed
            & (e.x < HOURS)
            & (e.y < MINUTES)
            & registers::rate_ok(e.z as u32),
        Some(Kind::Exception) => typed & date_ok(e),
        Some(Kind::Weekdays) => typed
            & (1 <= e.x)
            & (e.x <= e.y)
            & (e.y <= DAYS_OF_WEEK)
            & (e.z == 0),
        Some(Kind::Default) => typed & rest,
        None => false,
    }
}

#[tactic(auto, unfolding(crate::specs::Judge::opens))]
pub fn opens(daytype: u8, e: Entry) -> bool
    ensures { result ≡ opens daytype e }
{
    e.is(Kind::Time) & (e.daytype == daytype) & (minute(e) == 0)
}

pub fn above(n: u32, e: Entry) -> bool
    ensures { result ≡ above n e }
{
    e.is(Kind::Time) & registers::rate_ok(e.z as u32) & (n < e.z as u32)
}

#[tactic(auto, unfolding(crate::specs::Judge::clash))]
pub fn clash(a: Entry, b: Entry) -> bool
    ensures { result ≡ clash a b }
{
    if a.kind != b.kind {
        return false;
    }
    match a.kind() {
        Some(Kind::Time) => (a.daytype == b.daytype) & (minute(a) == minute(b)),
        Some(Kind::Exception) => (a.y == b.y)
            & (a.z == b.z)
            & ((a.x == b.x) | (a.x == EVERY_YEAR) | (b.x == EVERY_YEAR)),
        Some(Kind::Weekdays) => (a.x <= b.y) & (b.x <= a.y),
        Some(Kind::Default) => true,
        _ => false,
    }
}
