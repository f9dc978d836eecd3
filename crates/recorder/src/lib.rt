// The recorder of one circuit over a store of days that it is lent: its fields, their ranges, and what an event is answered. A refusal leaves recorder and store as they were.
// The entries take the store's three slices one by one, as C lends them; inside they are one value, `Days`.
#![tactic(auto)]

ghost use Rattle.std.specs.Prelude.{◌≡◌, ◌<◌, ◌≤◌};
ghost use Rattle.laws.specs.Tests.{all_true};
ghost use Rattle.answers.specs.Answer.{judged_as};
ghost use Rattle.calendar.specs.Clock.{times_in_all};
ghost use Rattle.format.specs.Identifier.{ident_ok};
ghost use Rattle.registers.specs.Energy.{Countable};
ghost use Rattle.store.specs.Class.{most_days};
ghost use Rattle.recorder.specs.Recorder.{cap_of};
ghost use Rattle.recorder.specs.Range.{identity_tests, register_tests, in_range};
ghost use Rattle.recorder.specs.Answer.{wrong_power, bad_value, too_early, bad_time, too_much, units_after, event_answer, answer_with};
ghost use Rattle.recorder.specs.Step.{carried_by};

mod set_up;
mod step;

use answers::Refusal;
use quantity::MilliwattHours;
use registers::{Demand, Energy, Present, Running, Shift};
use store::Class;

#[derive(Clone, Copy)]
pub struct Identity {
    pub identifier: [u8; 12],
    pub class: Class,
    pub weight: MilliwattHours,
}

#[derive(Clone, Copy)]
pub struct Recorder {
    pub identity: Identity,
    pub clock: Present,
    pub energy: Energy,
    pub demand: Demand,
    pub running: Running,
}

#[derive(Clone, Copy, PartialEq, Eq, Debug)]
pub enum Event {
    Count(u32),
    Clock(u64),
    Off,
    On(u64),
    Access,
    Meter(u32),
    Reset,
    Rate(u32),
    Reverse,
    Ppp(u8, u8, u8),
    Adjust(Shift),
}

// What a recorder is set up with.
#[derive(Clone, Copy)]
pub struct SetUp {
    pub identifier: [u8; 12],
    pub class: Class,
    pub weight: MilliwattHours,
    pub time: u64,
    pub total: MilliwattHours,
    pub counter: u32,
}

const MOST_UNITS: u64 = quantity::VALUE_ROUND - 1;

fn identifier_ok(id: [u8; 12]) -> bool
    ensures { result ≡ ident_ok id 0 }
{
    format::is_identifier(&id, 0)
}

impl Identity {
    fn in_range(self) -> bool
        ensures { result ≡ all_true (identity_tests self) }
    {
        identifier_ok(self.identifier) & registers::weight_ok(self.weight)
    }
}

// The ranges of the registers, with a class of so many days. A step judges the identity and these, each by its own fields: no copy of the whole recorder.
fn registers_ok(cap: u32, clock: Present, energy: Energy, demand: Demand, running: Running) -> bool
    ensures { result ≡ all_true (register_tests cap clock energy demand running) }
{
    clock.in_range(cap)
        & energy.in_range()
        & demand.in_range()
        & (running.base.0 < quantity::READING_ROUND)
}

// What an event is refused for, of a recorder that is good.
impl Event {
    // On asks that power is off, any other that it is on.
    #[tactic(auto, unfolding(crate::specs::Cause::wrong_power))]
    fn wrong_power(self, on: bool) -> bool
        ensures { result ≡ wrong_power on self }
    {
        match self {
            Event::On(_) => on,
            _ => !on,
        }
    }

    fn bad_value(self) -> bool
        ensures { result ≡ bad_value self }
    {
        match self {
            Event::Rate(n) => !registers::rate_ok(n),
            Event::Ppp(a, b, c) => !format::ppp_ok(a, b, c),
            Event::Adjust(h) => h.too_far(),
            _ => false,
        }
    }

    fn too_early(self, now: u64) -> bool
        ensures { result ≡ too_early now self }
    {
        match self {
            Event::Adjust(h) => h.early(now),
            _ => false,
        }
    }

    fn bad_time(self, now: u64) -> bool
        requires { now < times_in_all }
        ensures { result ≡ bad_time now self }
    {
        match self {
            Event::Clock(t) | Event::On(t) => (t < now) | (calendar::TIMES_IN_ALL <= t),
            Event::Adjust(h) => h.late(now),
            _ => false,
        }
    }
}

impl Recorder {
    // The days that the class holds.
    pub fn cap(self) -> u32
        ensures { (result ≡ cap_of self) × (result ≤ most_days) }
    {
        self.identity.class.days()
    }

    pub fn in_range(self) -> bool
        ensures { result ≡ in_range self }
    {
        self.identity.in_range()
            & registers_ok(
                self.cap(),
                self.clock,
                self.energy,
                self.demand,
                self.running,
            )
    }

    // Whether a Count would give the running half-hour too many units.
    fn too_much(self, event: Event) -> bool
        requires { Countable self.identity.weight self.energy }
        ensures { result ≡ too_much (units_after self) event }
    {
        match event {
            Event::Count(c) => {
                let units = self
                    .energy
                    .units_with(self.identity.weight, self.running.base, c);
                MOST_UNITS < units.0
            }
            _ => false,
        }
    }

    // The answer to an event, of a recorder in range with a store of its lengths.
    #[tactic(auto, unfolding(crate::specs::Answer::event_answer))]
    fn event_answer(self, event: Event) -> Result<(), Refusal>
        requires { Countable self.identity.weight self.energy × (self.clock.time < times_in_all) }
        ensures judged { judged_as result ≡ event_answer self.clock.on self.clock.time (units_after self) event }
        ensures bare { carried_by result ≡ 0 }
    {
        let now = self.clock.time;
        if event.wrong_power(self.clock.on) {
            return Err(Refusal::Power);
        }
        if event.bad_value() {
            return Err(Refusal::Range);
        }
        if event.too_early(now) {
            return Err(Refusal::Ended);
        }
        if event.bad_time(now) {
            return Err(Refusal::Time);
        }
        if self.too_much(event) {
            return Err(Refusal::Units);
        }
        Ok(())
    }

    // The answer to an event, with a store of these lengths.
    fn answer(self, event: Event, values: usize, starts: usize, marks: usize) -> Result<(), Refusal>
        ensures judged { judged_as result ≡ answer_with self event values starts marks }
        ensures bare { carried_by result ≡ 0 }
    {
        let cap = self.cap();
        if cap == 0 {
            return Err(Refusal::Damaged);
        }
        if !self.identity.class.fits(values, starts, marks) {
            return Err(Refusal::Length);
        }
        // By `in_range`, which others call too, the judging stays out of the loop that steps, and a Count takes three times as long.
        let good = self.identity.in_range()
            & registers_ok(cap, self.clock, self.energy, self.demand, self.running);
        if !good {
            return Err(Refusal::Damaged);
        }
        self.event_answer(event)
    }
}
