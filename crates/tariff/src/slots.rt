// What a closure says of a table's slots, one after another: each function is one pass, with no way out before the last slot.
ghost use Rattle.std.specs.Prelude.{◌≡◌, ◌≤◌, Bool, List, []};
ghost use Rattle.tariff.specs.Table.{Entry, slot_count, slots_to, slots_of, any_of, all_of, count_of};
ghost use Rattle.tariff.specs.Scans.{Answers, Keeps};

use crate::{Entry, SLOTS, Table, slot};

// Whether each slot passes.
#[tactic(auto, unfolding(crate::specs::Table::all_of, crate::specs::Table::slots_to))]
pub fn all<F: Fn(Entry) -> bool>(l: &Table, passes: F) -> bool
    requires asked { F.IsAlwaysCallable passes }
    ensures { (test : Entry → Bool) → Answers (F.post passes) test → result ≡ all_of test (slots_of l.now) }
{
    let mut ok = true;
    for i in 0..SLOTS {
        ok &= passes(slot(l, i));
    }
    ok
}

// Whether one of the first n slots passes.
#[tactic(auto, unfolding(crate::specs::Table::any_of, crate::specs::Table::slots_to))]
pub fn any<F: Fn(Entry) -> bool>(l: &Table, n: usize, passes: F) -> bool
    requires slots { n ≤ slot_count }
    requires asked { F.IsAlwaysCallable passes }
    ensures { (test : Entry → Bool) → Answers (F.post passes) test → result ≡ any_of test (slots_to l.now n) }
{
    let mut found = false;
    for i in 0..n {
        found |= passes(slot(l, i));
    }
    found
}

// How many slots pass.
#[tactic(auto, unfolding(crate::specs::Table::count_of, crate::specs::Table::slots_to))]
pub fn count<F: Fn(Entry) -> bool>(l: &Table, passes: F) -> u32
    requires asked { F.IsAlwaysCallable passes }
    ensures { (test : Entry → Bool) → Answers (F.post passes) test → result ≡ count_of test (slots_of l.now) }
{
    let mut n: u32 = 0;
    for i in 0..SLOTS {
        n += u32::from(passes(slot(l, i)));
    }
    n
}

// What is kept after all slots.
#[tactic(auto, unfolding(crate::specs::Table::slots_to))]
pub fn fold<A: Copy, F: Fn(A, Entry) -> A>(l: &Table, first: A, next: F) -> A
    requires asked { F.IsAlwaysCallable next }
    ensures { (kept : List Entry → A) → first ≡ kept [] → Keeps (F.post next) kept → result ≡ kept (slots_of l.now) }
{
    let mut best = first;
    for i in 0..SLOTS {
        best = next(best, slot(l, i));
    }
    best
}
