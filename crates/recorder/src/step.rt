// A step: what an accepted event does to recorder and store, and the entry that does it.
ghost use Rattle.std.specs.Prelude.{◌≡◌, false, ◌+◌, ◌<◌};
ghost use Rattle.calendar.specs.Clock.{times_in_all};
ghost use Rattle.registers.specs.Energy.{Countable};
ghost use Rattle.store.specs.Store.{SamePlaces, store_of, flag_at, flagged};
ghost use Rattle.recorder.specs.Recorder.{mem, mem_of, cap_of, today_of, with_clock};
ghost use Rattle.recorder.specs.Boundary.{ended, store_at, advance_to};
ghost use Rattle.recorder.specs.Effect.{counted, last_is, rate_is, ppp_is, was_reset, switched_off, accessed, reversed, first_flagged, after};
ghost use Rattle.recorder.specs.Answer.{too_early, answer_of};
ghost use Rattle.recorder.specs.Step.{done, step};
ghost use Rattle.recorder.specs.Needs.{Good, Goes, Resets, Flaggable, time_in, marked_if, told};

use crate::{Event, Recorder};
use answers::Refusal;
use registers::Present;
use store::Days;

const POWER_LOST: u64 = 0x80;

const METER_CHANGED: u64 = 0x40;

const DEMAND_RESET: u64 = 0x20;

impl Event {
    // The time that it is, if the event tells it, and whether the half-hour that runs before is marked.
    fn time(self, now: u64) -> Option<(u64, bool)>
        requires { (now < times_in_all) × (too_early now self ≡ false) }
        ensures { result ≡ time_in now self }
    {
        match self {
            Event::Clock(t) | Event::On(t) => Some((t, false)),
            Event::Adjust(h) => Some((h.time(now), true)),
            _ => None,
        }
    }
}

impl Recorder {
    // ---- effects on the recorder alone

    fn counted(mut self, c: u32) -> Recorder
        requires { Countable self.identity.weight self.energy }
        ensures { result ≡ counted c self }
    {
        self.energy = self.energy.counted(self.identity.weight, c);
        self
    }

    // Another meter, whose counter stands at c.
    fn metered(mut self, c: u32) -> Recorder
        ensures { result ≡ accessed (last_is c self) }
    {
        self.energy.last = c;
        self.running.level2 = true;
        self
    }

    fn rate_is(mut self, n: u32) -> Recorder
        ensures { result ≡ rate_is n self }
    {
        self.energy.rate = n;
        self
    }

    fn switched_off(mut self) -> Recorder
        ensures { result ≡ switched_off self }
    {
        self.clock.on = false;
        self
    }

    fn accessed(mut self) -> Recorder
        ensures { result ≡ accessed self }
    {
        self.running.level2 = true;
        self
    }

    fn marked(self, mark: bool) -> Recorder
        ensures { result ≡ marked_if mark self }
    {
        if mark { self.accessed() } else { self }
    }

    fn reversed(mut self) -> Recorder
        ensures { result ≡ reversed self }
    {
        self.running.reverse = true;
        self
    }

    // PPP becomes these three.
    fn ppp_is(mut self, a: u8, b: u8, c: u8) -> Recorder
        ensures { result ≡ accessed (ppp_is a b c self) }
    {
        self.identity.identifier = format::with_ppp(self.identity.identifier, a, b, c);
        self.running.level2 = true;
        self
    }

    fn was_reset(mut self) -> Recorder
        requires { Resets self }
        ensures { result ≡ accessed (was_reset self) }
    {
        self.demand = self.demand.reset_on(self.clock.today());
        self.running.level2 = true;
        self
    }

    // The running half-hour ends.
    #[tactic(auto, unfolding(crate::specs::Boundary::ended))]
    fn ended(mut self) -> Recorder
        ensures { result ≡ ended self }
    {
        self.demand = self.demand.closed(self.energy, self.running);
        self.running = self.energy.begun();
        self
    }

    fn with_clock(mut self, clock: Present) -> Recorder
        ensures { result ≡ with_clock clock self }
    {
        self.clock = clock;
        self
    }

    // ---- effects on the store

    // The store when time has gone on to a later half-hour.
    fn carry_to(self, to: u32, days: &mut Days<'_>)
        requires { Good (mem_of self days.old) }
        ensures is { store_of days.new ≡ store_at to self (store_of days.old) }
        ensures same { SamePlaces days.new days.old }
    {
        days.go_on(
            self.cap(),
            self.clock.half(),
            to,
            self.energy.total.reading(),
            self.running.reverse,
            self.running.level2,
        );
    }

    // Time becomes t: each boundary passed closes a half-hour.
    fn advance_to(self, t: u64, days: &mut Days<'_>) -> Recorder
        requires { Goes t (mem_of self days.old) }
        ensures is { mem_of result days.new ≡ advance_to t (mem_of self days.old) }
        ensures same { SamePlaces days.new days.old }
    {
        let next = self.clock.gone_to(self.cap(), t);
        let to = next.half();
        if self.clock.half() == to {
            return self.with_clock(next);
        }
        self.carry_to(to, days);
        self.ended().with_clock(next)
    }

    // Today gets a flag.
    fn flag_today(self, flag: u64, marks: &mut [u64])
        requires { Flaggable self marks.old }
        ensures { marks.new ≡ flag_at (cap_of self) flag (today_of self) marks.old }
    {
        store::flag_day(self.cap(), self.clock.today(), flag, marks);
    }

    // Every stored day from one on to today gets it.
    fn flag_from(self, from: u32, flag: u64, marks: &mut [u64])
        requires { Flaggable self marks.old }
        ensures { marks.new ≡ flagged (cap_of self) (first_flagged self from) (today_of self + 1) flag marks.old }
    {
        let end = self.clock.today() + 1;
        let first = from.max(end.saturating_sub(self.clock.days));
        store::flag_days(self.cap(), first, end, flag, marks);
    }

    // Clock(t), Adjust and On(t). The first two are accepted while power is on, the last while it is off, and its days get a flag. The identity, which no time changes, goes
    // round the call and not through it: so a loop knows where it stays, and need not judge it each time.
    fn told(self, t: u64, days: &mut Days<'_>) -> Recorder
        requires { Goes t (mem_of self days.old) }
        ensures is { mem_of result days.new ≡ told t (mem_of self days.old) }
        ensures same { SamePlaces days.new days.old }
    {
        let clock = self.clock;
        let identity = self.identity;
        let mut next = self.advance_to(t, days);
        next.identity = identity;
        if clock.on {
            return next;
        }
        next.flag_from(clock.today(), POWER_LOST, days.marks);
        next
    }

    // What an accepted event of the others does.
    #[tactic(auto, unfolding(crate::specs::Effect::after, crate::specs::Effect::flag_today))]
    fn changed(self, event: Event, days: &mut Days<'_>) -> Recorder
        requires { (answer_of (mem_of self days.old) event ≡ 0) × (time_in self.clock.time event ≡ None) }
        ensures is { mem_of result days.new ≡ after (mem_of self days.old) event }
        ensures same { SamePlaces days.new days.old }
    {
        match event {
            Event::Clock(_) | Event::On(_) | Event::Adjust(_) => self,
            Event::Count(c) => self.counted(c),
            Event::Off => self.switched_off(),
            Event::Access => self.accessed(),
            Event::Meter(c) => {
                self.flag_today(METER_CHANGED, days.marks);
                self.metered(c)
            }
            Event::Reset => {
                self.flag_today(DEMAND_RESET, days.marks);
                self.was_reset()
            }
            Event::Rate(n) => self.rate_is(n),
            Event::Reverse => self.reversed(),
            Event::Ppp(a, b, c) => self.ppp_is(a, b, c),
        }
    }

    // What an accepted event does. Time goes on in one place, so that all of it becomes part of the caller's loop.
    fn applied(self, event: Event, days: &mut Days<'_>) -> Recorder
        requires { answer_of (mem_of self days.old) event ≡ 0 }
        ensures is { mem_of result days.new ≡ after (mem_of self days.old) event }
        ensures same { SamePlaces days.new days.old }
    {
        let Some((t, mark)) = event.time(self.clock.time) else {
            return self.changed(event, days);
        };
        self.marked(mark).told(t, days)
    }

    // ---- the entry

    // The recorder after an event, beside the answer; a refusal leaves recorder and store as they were.
    pub fn step(
        self,
        event: Event,
        values: &mut [u16],
        starts: &mut [u32],
        marks: &mut [u64],
    ) -> (Recorder, Result<(), Refusal>)
        ensures { done result.1 result.0 values.new starts.new marks.new
            ≡ step (mem self values.old starts.old marks.old) event }
    {
        match self.answer(event, values.len(), starts.len(), marks.len()) {
            Ok(()) => {
                let mut days = Days {
                    values,
                    starts,
                    marks,
                };
                (self.applied(event, &mut days), Ok(()))
            }
            Err(refusal) => (self, Err(refusal)),
        }
    }
}
