// Set-up: what is given is judged, and the recorder and its store begin.
ghost use Rattle.std.specs.Prelude.{◌≡◌};
ghost use Rattle.laws.specs.Tests.{all_true};
ghost use Rattle.store.specs.Store.{store};
ghost use Rattle.answers.specs.Answer.{judged_as};
ghost use Rattle.recorder.specs.Step.{carried_by};
ghost use Rattle.recorder.specs.SetUp.{set_up_tests, set_up_with, started, fresh, store_begun, blank, set_up};
ghost use Rattle.recorder.specs.Step.{done};
ghost use Rattle.recorder.specs.Needs.{Begins};

use crate::{Identity, Recorder, SetUp, identifier_ok};
use answers::Refusal;
use quantity::MilliwattHours;
use registers::{Demand, Energy, Present};
use store::{Class, Days};

impl SetUp {
    fn in_range(self) -> bool
        ensures { result ≡ all_true (set_up_tests self) }
    {
        identifier_ok(self.identifier)
            & (1 <= self.class.days())
            & registers::weight_ok(self.weight)
            & (self.time < calendar::TIMES_IN_ALL)
            & (self.total.0 < quantity::TOTAL_ROUND)
    }

    // What a set-up with a store of these lengths is answered.
    pub fn answer(self, values: usize, starts: usize, marks: usize) -> Result<(), Refusal>
        ensures judged { judged_as result ≡ set_up_with self values starts marks }
        ensures bare { carried_by result ≡ 0 }
    {
        if !self.in_range() {
            return Err(Refusal::Range);
        }
        if !self.class.fits(values, starts, marks) {
            return Err(Refusal::Length);
        }
        Ok(())
    }

    #[tactic(auto, unfolding(crate::specs::SetUp::fresh))]
    fn fresh(self) -> Recorder
        ensures { result ≡ fresh self }
    {
        let SetUp {
            identifier,
            class,
            weight,
            time,
            total,
            counter,
        } = self;
        let identity = Identity {
            identifier,
            class,
            weight,
        };
        let clock = Present {
            time,
            on: true,
            days: 1,
        };
        Recorder::started(identity, clock, Energy::from(total, counter, 1))
    }

    // The store as it begins.
    fn begin(self, values: &mut [u16], starts: &mut [u32], marks: &mut [u64])
        requires { Begins self (store values.old starts.old marks.old) }
        ensures { store values.new starts.new marks.new ≡ store_begun self }
    {
        let q = (self.time / calendar::SECONDS_OF_HALF) as u32;
        let mut days = Days {
            values,
            starts,
            marks,
        };
        days.begin(self.class.days(), q, self.total.reading());
    }
}

impl Recorder {
    // A recorder that begins with these.
    #[tactic(auto, unfolding(crate::specs::SetUp::started))]
    fn started(identity: Identity, clock: Present, energy: Energy) -> Recorder
        ensures { result ≡ started identity clock energy }
    {
        Recorder {
            identity,
            clock,
            energy,
            demand: Demand::none(),
            running: energy.begun(),
        }
    }

    // A recorder set up, beside the answer; a refusal hands back the blank recorder and leaves the store as it was.
    pub fn set_up(
        given: SetUp,
        values: &mut [u16],
        starts: &mut [u32],
        marks: &mut [u64],
    ) -> (Recorder, Result<(), Refusal>)
        ensures { done result.1 result.0 values.new starts.new marks.new
            ≡ set_up given (store values.old starts.old marks.old) }
    {
        match given.answer(values.len(), starts.len(), marks.len()) {
            Ok(()) => {
                given.begin(values, starts, marks);
                (given.fresh(), Ok(()))
            }
            Err(refusal) => (Recorder::blank(), Err(refusal)),
        }
    }

    // The recorder that a refused set-up hands back: no class, and zeros.
    #[tactic(auto, unfolding(crate::specs::SetUp::blank))]
    pub fn blank() -> Recorder
        ensures { result ≡ blank }
    {
        let identity = Identity {
            identifier: [0; 12],
            class: Class::Blank,
            weight: MilliwattHours(0),
        };
        let clock = Present {
            time: 0,
            on: false,
            days: 0,
        };
        Recorder::started(identity, clock, Energy::from(MilliwattHours(0), 0, 0))
    }
}
