// The recorder's events and its read in loops, for desk/bench to time them: set-up with fixed values in a lent store of class d, then so many events,
// one after another, by the recorder's own entries. It is no part of the product.
#![tactic(auto)]

ghost use Rattle.std.specs.Prelude.{◌≡◌, ◌*◌};
ghost use Rattle.laws.specs.Each.{for_to};
ghost use Rattle.answers.specs.Answer.{answered};
ghost use Rattle.recorder.specs.Recorder.{mem};
ghost use Rattle.store.specs.Store.{store};
ghost use Rattle.timing.specs.declared.Kind.TheVariants.{Counts, Clocks, Outages};
ghost use Rattle.timing.specs.Timed.{begun, outage, nth, coming, played, totalled, total_of, time_of, stored, reads, reads_of};

use answers::Refusal;
use quantity::MilliwattHours;
use recorder::{Event, Recorder, SetUp};
use store::Class;

const ALL_DAYS: u32 = Class::DAYS_D;

// The meter that is set up: its identifier, ABCX24000017, and the weight of a pulse, 1 Wh.
pub const METER: SetUp = SetUp {
    identifier: [65, 66, 67, 88, 50, 52, 48, 48, 48, 48, 49, 55],
    class: Class::D,
    weight: MilliwattHours(1000),
    time: 0,
    total: MilliwattHours(0),
    counter: 0,
};

// Which events come, one after another.
#[derive(Clone, Copy, PartialEq, Eq, Debug)]
pub enum Kind {
    Counts,
    Clocks(u32),
    Outages(u32),
}

// The time after i times so many seconds.
pub fn time_at(by: u32, i: u32) -> u64
    ensures { result ≡ by * i }
{
    (by as u64) * (i as u64)
}

// Off, and On so many seconds later, in turn.
fn outage(by: u32, i: u32) -> Event
    ensures { result ≡ outage by i }
{
    if i % 2 == 1 {
        Event::Off
    } else {
        Event::On(time_at(by, i / 2))
    }
}

// The i-th event: the counter goes on by one pulse each time, or the time by so many seconds, with power or without.
fn nth(kind: Kind, i: u32) -> Event
    ensures { result ≡ nth kind i }
{
    match kind {
        Kind::Counts => Event::Count(i),
        Kind::Clocks(by) => Event::Clock(time_at(by, i)),
        Kind::Outages(by) => outage(by, i),
    }
}

fn begun(values: &mut [u16], starts: &mut [u32], marks: &mut [u64]) -> Recorder
    ensures { mem result values.new starts.new marks.new
        ≡ begun (store values.old starts.old marks.old) }
{
    let (r, _answer) = Recorder::set_up(METER, values, starts, marks);
    r
}

// n events, whatever they are answered. It is the one place that steps, as a recorder's program has one, so that the step becomes part of the loop.
fn often(
    mut r: Recorder,
    kind: Kind,
    values: &mut [u16],
    starts: &mut [u32],
    marks: &mut [u64],
    n: u32,
) -> Recorder
    ensures { mem result values.new starts.new marks.new
        ≡ for_to (coming kind) 0 n (mem r values.old starts.old marks.old) }
{
    for i in 0..n {
        let (next, _answer) = r.step(nth(kind, i + 1), values, starts, marks);
        r = next;
    }
    r
}

fn played(kind: Kind, values: &mut [u16], starts: &mut [u32], marks: &mut [u64], n: u32) -> Recorder
    ensures { mem result values.new starts.new marks.new
        ≡ played kind n (store values.old starts.old marks.old) }
{
    let first = begun(values, starts, marks);
    often(first, kind, values, starts, marks, n)
}

// n Counts of one pulse each; the total afterwards.
pub fn timed_counts(values: &mut [u16], starts: &mut [u32], marks: &mut [u64], n: u32) -> u64
    ensures { totalled result (store values.new starts.new marks.new)
        ≡ total_of (played Counts n (store values.old starts.old marks.old)) }
{
    let r = played(Kind::Counts, values, starts, marks, n);
    r.energy.total.0
}

// n Clocks, each so many seconds on; the time afterwards.
pub fn timed_clocks(
    values: &mut [u16],
    starts: &mut [u32],
    marks: &mut [u64],
    n: u32,
    by: u32,
) -> u64
    ensures { totalled result (store values.new starts.new marks.new)
        ≡ time_of (played (Clocks by) n (store values.old starts.old marks.old)) }
{
    let r = played(Kind::Clocks(by), values, starts, marks, n);
    r.clock.time
}

// n events of outages, Off and On in turn, each outage so many seconds long; the time afterwards.
pub fn timed_outages(
    values: &mut [u16],
    starts: &mut [u32],
    marks: &mut [u64],
    n: u32,
    by: u32,
) -> u64
    ensures { totalled result (store values.new starts.new marks.new)
        ≡ time_of (played (Outages by) n (store values.old starts.old marks.old)) }
{
    let r = played(Kind::Outages(by), values, starts, marks, n);
    r.clock.time
}

// The bytes that a read carries, done or refused.
fn carried(answer: Result<u32, Refusal>) -> u32
    ensures { result ≡ (answered answer).carried }
{
    match answer {
        Ok(sent) => sent,
        Err(refusal) => refusal.carried(),
    }
}

fn read_often(
    r: Recorder,
    values: &[u16],
    starts: &[u32],
    marks: &[u64],
    out: &mut [u8],
    n: u32,
) -> u64
    ensures { reads out.new result ≡ reads_of n (mem r values.now starts.now marks.now) out.old }
{
    let mut bytes: u64 = 0;
    for _i in 0..n {
        let answer = readout::read(&r, ALL_DAYS, values, starts, marks, out);
        bytes += carried(answer) as u64;
    }
    bytes
}

// A Clock to a second, and n reads of all days; the bytes that they gave, added up.
pub fn timed_reads(
    values: &mut [u16],
    starts: &mut [u32],
    marks: &mut [u64],
    out: &mut [u8],
    n: u32,
    to: u32,
) -> u64
    ensures { (store values.new starts.new marks.new
        ≡ (stored to (store values.old starts.old marks.old)).store)
        × (reads out.new result ≡ reads_of n (stored to (store values.old starts.old marks.old)) out.old) }
{
    let r = played(Kind::Clocks(to), values, starts, marks, 1);
    read_often(r, values, starts, marks, out, n)
}
