// A table as a load judges it: each entry by itself, how many there are, what must not be missing, and clashes. Each question is one pass over all slots, with no way out before the last.
ghost use Rattle.std.specs.Prelude.{◌≡◌};
ghost use Rattle.tariff.specs.Table.{slots_of, any_of};
ghost use Rattle.tariff.specs.Judge.{served, clash_in, above, sound};

use crate::entries::{above, clash, entry_ok, opens};
use crate::slots::{all, any, count};
use crate::{Entry, Kind, MOST_EXCEPTIONS, MOST_TIMES, SLOTS, Table, slot, uses};

#[tactic(auto, unfolding(crate::specs::Judge::served))]
fn served(l: &Table, e: Entry) -> bool
    ensures { result ≡ served (slots_of l.now) e }
{
    !uses(e) || any(l, SLOTS, |f| opens(e.daytype, f))
}

#[tactic(auto, unfolding(crate::specs::Judge::clash_in, crate::specs::Table::slots_to))]
pub fn any_clash(l: &Table) -> bool
    ensures { result ≡ clash_in (slots_of l.now) }
{
    let mut found = false;
    for i in 0..SLOTS {
        let e = slot(l, i);
        found |= any(l, i, |f| clash(e, f));
    }
    found
}

pub fn any_above(l: &Table, n: u32) -> bool
    ensures { result ≡ any_of (above n) (slots_of l.now) }
{
    any(l, SLOTS, |e| above(n, e))
}

pub fn is_sound(l: &Table) -> bool
    ensures { result ≡ sound (slots_of l.now) }
{
    all(l, entry_ok)
        & (count(l, |e| e.is(Kind::Time)) <= MOST_TIMES)
        & (count(l, |e| e.is(Kind::Exception)) <= MOST_EXCEPTIONS)
        & any(l, SLOTS, |e| e.is(Kind::Default))
        & all(l, |e| served(l, e))
}
