// An outstation with a switching table in loops, for desk/bench to time them: set-up with fixed values in a lent store of class d, a load, then so many events; or loads alone. It has a crate of
// its own, apart from the recorder's loops, so that in each archive the recorder steps in one place. It is no part of the product.
#![tactic(auto)]

ghost use Rattle.std.specs.Prelude.{◌≡◌, ◌*◌};
ghost use Rattle.laws.specs.Each.{for_to};
ghost use Rattle.store.specs.Store.{store};
ghost use Rattle.outstation.specs.Outstation.{site};
ghost use Rattle.timed.specs.declared.Course.TheVariants.{Counts, Clocks, Loads};
ghost use Rattle.timed.specs.Timed.{begun, later, nth, coming, played, told, total_of, time_of, rate_of};

use outstation::{Happening, Outstation, Phase};
use recorder::Event;

// Which events come after the load, one after another; or loads.
#[derive(Clone, Copy, PartialEq, Eq, Debug)]
pub enum Course {
    Counts,
    Clocks(u32),
    Loads,
}

// The i-th event: the counter goes on by one pulse each time, or the time by so many seconds.
fn later(course: Course, i: u32) -> Happening
    ensures { result ≡ later course i }
{
    match course {
        Course::Counts => Happening::Of(Event::Count(i)),
        Course::Clocks(by) => Happening::Of(Event::Clock(timing::time_at(by, i))),
        Course::Loads => Happening::Load,
    }
}

// The first is the load.
fn nth(course: Course, i: u32) -> Happening
    ensures { result ≡ nth course i }
{
    if i == 0 {
        Happening::Load
    } else {
        later(course, i)
    }
}

fn begun(values: &mut [u16], starts: &mut [u32], marks: &mut [u64], table: &mut [u8]) -> Outstation
    ensures { site result values.new starts.new marks.new table.new
        ≡ begun (store values.old starts.old marks.old) table.old }
{
    let (o, _answer) = Outstation::set_up(timing::METER, Phase::Poly, values, starts, marks, table);
    o
}

// n of what comes, whatever it is answered. It is the one place where something happens, as an outstation's program has one.
fn often(
    mut o: Outstation,
    course: Course,
    offered: &[u8],
    values: &mut [u16],
    starts: &mut [u32],
    marks: &mut [u64],
    table: &mut [u8],
    n: u32,
) -> Outstation
    ensures { site result values.new starts.new marks.new table.new
        ≡ for_to (coming course offered.now) 0 n (site o values.old starts.old marks.old table.old) }
{
    for i in 0..n {
        let _answer = o.happens(nth(course, i), offered, values, starts, marks, table);
    }
    o
}

fn played(
    course: Course,
    offered: &[u8],
    values: &mut [u16],
    starts: &mut [u32],
    marks: &mut [u64],
    table: &mut [u8],
    n: u32,
) -> Outstation
    ensures { site result values.new starts.new marks.new table.new
        ≡ played course n offered.now (store values.old starts.old marks.old) table.old }
{
    let first = begun(values, starts, marks, table);
    often(first, course, offered, values, starts, marks, table, n)
}

// A load, and n - 1 Counts of one pulse each; the total afterwards.
pub fn timed_tariff_counts(
    values: &mut [u16],
    starts: &mut [u32],
    marks: &mut [u64],
    table: &mut [u8],
    offered: &[u8],
    n: u32,
) -> u64
    ensures { told result (store values.new starts.new marks.new) table.new
        ≡ total_of (played Counts n offered.now (store values.old starts.old marks.old) table.old) }
{
    let o = played(Course::Counts, offered, values, starts, marks, table, n);
    o.recorder.energy.total.0
}

// A load, and n - 1 Clocks, each so many seconds on; the time afterwards.
pub fn timed_tariff_clocks(
    values: &mut [u16],
    starts: &mut [u32],
    marks: &mut [u64],
    table: &mut [u8],
    offered: &[u8],
    n: u32,
    by: u32,
) -> u64
    ensures { told result (store values.new starts.new marks.new) table.new
        ≡ time_of (played (Clocks by) n offered.now (store values.old starts.old marks.old) table.old) }
{
    let o = played(Course::Clocks(by), offered, values, starts, marks, table, n);
    o.recorder.clock.time
}

// n loads; the active rate afterwards.
pub fn timed_tariff_loads(
    values: &mut [u16],
    starts: &mut [u32],
    marks: &mut [u64],
    table: &mut [u8],
    offered: &[u8],
    n: u32,
) -> u64
    ensures { told result (store values.new starts.new marks.new) table.new
        ≡ rate_of (played Loads n offered.now (store values.old starts.old marks.old) table.old) }
{
    let o = played(Course::Loads, offered, values, starts, marks, table, n);
    o.recorder.energy.rate as u64
}
