// A time adjust's seconds: of a signed number, what each is refused for, and the time that they make of the present one.
ghost use Rattle.std.specs.Prelude.{◌≡◌, ◌<◌, false};
ghost use Rattle.calendar.specs.Clock.{times_in_all};
ghost use Rattle.registers.specs.Shift.{shift_of, shifted, too_far, early, late};

use crate::Shift;

const FARTHEST: u32 = 900;

impl Shift {
    // Seconds ahead, or back where the number is negative. No `From`: docs/PROMISES.md lists it as an entry point, which an impl of a trait is not.
    pub fn of(n: i32) -> Shift
        ensures { result ≡ shift_of n }
    {
        if n < 0 {
            return Shift::Back(n.unsigned_abs());
        }
        Shift::Ahead(n.unsigned_abs())
    }

    pub fn too_far(self) -> bool
        ensures { result ≡ too_far self }
    {
        match self {
            Shift::Ahead(n) | Shift::Back(n) => FARTHEST < n,
        }
    }

    pub fn early(self, now: u64) -> bool
        ensures { result ≡ early now self }
    {
        match self {
            Shift::Ahead(_) => false,
            Shift::Back(n) => now % calendar::SECONDS_OF_HALF < n as u64,
        }
    }

    pub fn late(self, now: u64) -> bool
        requires { now < times_in_all }
        ensures { result ≡ late now self }
    {
        match self {
            Shift::Ahead(n) => calendar::TIMES_IN_ALL <= now + n as u64,
            Shift::Back(_) => false,
        }
    }

    // The time that it makes of the present one.
    pub fn time(self, now: u64) -> u64
        requires { (now < times_in_all) × (early now self ≡ false) }
        ensures { result ≡ shifted now self }
    {
        match self {
            Shift::Ahead(n) => now + n as u64,
            Shift::Back(n) => now - n as u64,
        }
    }
}
