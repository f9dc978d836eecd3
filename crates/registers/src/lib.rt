// The recorder's fields in their groups, each by value: the present, the running half-hour, energy and demand; and by how much the present is adjusted.
#![tactic(auto)]

ghost use Rattle.std.specs.Prelude.{◌≡◌, ◌/◌, ◌<◌, ◌≤◌};
ghost use Rattle.quantity.specs.Units.{units, reading_of};
ghost use Rattle.registers.specs.Energy.{Countable, running_from, energy_from, demand_since, weight_ok, rate_ok, rates_ok, energy_ok, pulses_of, added_of, most_added, units_with, energy_counted};
ghost use Rattle.registers.specs.Demand.{Resettable, demand_ok, demand_closed, demand_reset, no_demand};
ghost use Rattle.registers.specs.Present.{Later, present_ok, present_at};
ghost use Rattle.calendar.specs.Calendar.{days_in_all};
ghost use Rattle.calendar.specs.Clock.{seconds_of_day, seconds_of_half, times_in_all};
ghost use Rattle.registers.specs.Present.{halves_in_all};

mod adjust;

use quantity::{CentiKilowatts, MilliwattHours, RegisterUnits};

// The present time, whether power is on, and the days stored.
#[derive(Clone, Copy, PartialEq, Eq, Debug)]
pub struct Present {
    pub time: u64,
    pub on: bool,
    pub days: u32,
}

// The running half-hour: the reading at its start, and its two marks.
#[derive(Clone, Copy)]
pub struct Running {
    pub base: RegisterUnits,
    pub reverse: bool,
    pub level2: bool,
}

#[derive(Clone, Copy)]
pub struct Energy {
    pub total: MilliwattHours,
    pub last: u32,
    pub rate: u32,
    pub rates: [MilliwattHours; 8],
}

#[derive(Clone, Copy)]
pub struct Demand {
    pub current: CentiKilowatts,
    pub previous: CentiKilowatts,
    pub cumulative: CentiKilowatts,
    pub reset: u32,
    pub count: u32,
}

// By how many seconds the clock is adjusted.
#[derive(Clone, Copy, PartialEq, Eq, Debug)]
pub enum Shift {
    Ahead(u32),
    Back(u32),
}

const LEAST_WEIGHT: u64 = 1;

const MOST_WEIGHT: u64 = 100000;

pub const RATES: u32 = 8;

const COUNT_ROUND: u32 = 100;

impl Present {
    pub fn in_range(self, cap: u32) -> bool
        ensures { result ≡ present_ok cap self }
    {
        (self.time < calendar::TIMES_IN_ALL)
            & (1 <= self.days)
            & (self.days <= cap)
            & ((self.days as u64) <= self.time / calendar::SECONDS_OF_DAY + 1)
    }

    // The numbers of today and of the running half-hour: two constants and two bounds, for which one function over both would ask its callers.
    pub fn today(self) -> u32
        requires { self.time < times_in_all }
        ensures { (result ≡ self.time / seconds_of_day) × (result < days_in_all) }
    {
        (self.time / calendar::SECONDS_OF_DAY) as u32
    }

    pub fn half(self) -> u32
        requires { self.time < times_in_all }
        ensures { (result ≡ self.time / seconds_of_half) × (result < halves_in_all) }
    {
        (self.time / calendar::SECONDS_OF_HALF) as u32
    }

    // It is t, with power on.
    pub fn gone_to(mut self, cap: u32, t: u64) -> Present
        requires { Later cap t self }
        ensures { (result ≡ present_at cap t self) × (result.time < times_in_all) }
    {
        let midnights = (t / calendar::SECONDS_OF_DAY
            - self.time / calendar::SECONDS_OF_DAY) as u32;
        self.days = cap.min(self.days + midnights);
        self.time = t;
        self.on = true;
        self
    }
}

// Whether so many thousandths of a watt-hour may be a pulse.
pub fn weight_ok(weight: MilliwattHours) -> bool
    ensures { result ≡ weight_ok weight }
{
    (LEAST_WEIGHT <= weight.0) & (weight.0 <= MOST_WEIGHT)
}

pub fn rate_ok(n: u32) -> bool
    ensures { result ≡ rate_ok n }
{
    (1 <= n) & (n <= RATES)
}

// The pulses from one value of the counter to the next: it is 32 bits wide and runs round.
fn pulses(last: u32, c: u32) -> u32
    ensures { result ≡ pulses_of last c }
{
    c.wrapping_sub(last)
}

fn rates_ok(rates: [MilliwattHours; 8]) -> bool
    ensures { result ≡ rates_ok rates }
{
    rates.iter().all(|r| r.0 < quantity::TOTAL_ROUND)
}

impl Energy {
    pub fn in_range(self) -> bool
        ensures { result ≡ energy_ok self }
    {
        (self.total.0 < quantity::TOTAL_ROUND) & rate_ok(self.rate) & rates_ok(self.rates)
    }

    // Registers that begin at a total.
    pub fn from(total: MilliwattHours, last: u32, rate: u32) -> Energy
        ensures { result ≡ energy_from total last rate }
    {
        Energy {
            total,
            last,
            rate,
            rates: [MilliwattHours(0); 8],
        }
    }

    // A half-hour that begins now.
    pub fn begun(self) -> Running
        ensures { result ≡ running_from (reading_of self.total) }
    {
        Running {
            base: self.total.reading(),
            reverse: false,
            level2: false,
        }
    }

    // The demand of one that began at a reading, if it ends now.
    fn demand_since(self, base: RegisterUnits) -> CentiKilowatts
        ensures { result ≡ demand_since base self }
    {
        let value = self.total.reading().last_four();
        value.advance_from(base.last_four()).demand()
    }

    // The energy of the pulses since the last count.
    fn added(self, weight: MilliwattHours, c: u32) -> MilliwattHours
        requires { Countable weight self }
        ensures { (result ≡ added_of weight self.last c) × (result.0 ≤ most_added) }
    {
        MilliwattHours((pulses(self.last, c) as u64) * weight.0)
    }

    // The running half-hour's units after Count(c), from the reading at its start.
    pub fn units_with(self, weight: MilliwattHours, base: RegisterUnits, c: u32) -> RegisterUnits
        requires { Countable weight self }
        ensures { result ≡ units (units_with weight base c self) }
    {
        let added = self.added(weight, c);
        let reading = self.total.reading();
        let then = MilliwattHours(self.total.0 + added.0).reading();
        RegisterUnits(reading.gap_from(base).0 + (then.0 - reading.0))
    }

    // Count(c).
    pub fn counted(mut self, weight: MilliwattHours, c: u32) -> Energy
        requires { Countable weight self }
        ensures { result ≡ energy_counted weight c self }
    {
        let added = self.added(weight, c);
        let at = (self.rate - 1) as usize;
        self.total = self.total.plus(added);
        self.last = c;
        self.rates[at] = self.rates[at].plus(added);
        self
    }
}

impl Demand {
    pub fn none() -> Demand
        ensures { result ≡ no_demand }
    {
        Demand {
            current: CentiKilowatts(0),
            previous: CentiKilowatts(0),
            cumulative: CentiKilowatts(0),
            reset: 0,
            count: 0,
        }
    }

    pub fn in_range(self) -> bool
        ensures { result ≡ demand_ok self }
    {
        (self.current.0 < quantity::DEMAND_ROUND)
            & (self.previous.0 < quantity::DEMAND_ROUND)
            & (self.cumulative.0 < quantity::DEMAND_ROUND)
            & (self.reset <= calendar::DAYS_IN_ALL)
            & (self.count < COUNT_ROUND)
    }

    // The running half-hour ends.
    pub fn closed(mut self, energy: Energy, running: Running) -> Demand
        ensures { result ≡ demand_closed energy running self }
    {
        let demand = energy.demand_since(running.base);
        self.current.0 = self.current.0.max(demand.0);
        self
    }

    // Reset on a day.
    pub fn reset_on(mut self, day: u32) -> Demand
        requires { Resettable day self }
        ensures { result ≡ demand_reset day self }
    {
        self.previous = self.current;
        self.cumulative = self.cumulative.plus(self.current);
        self.current.0 = 0;
        self.reset = day + 1;
        self.count = (self.count + 1) % COUNT_ROUND;
        self
    }
}
