// A recorder as a row of numbers, and a recorder or a header out of such a row: what a script shows and changes field by field. A header as a row is what the
// library for C gives. Every function takes any row: a number that is not there is 0, and an output without room stays as it was.
#![tactic(auto)]

ghost use Rattle.std.specs.Prelude.{◌≡◌, ◌≤◌, length};
ghost use Rattle.std.proofs.lemmas.List.Edits.{sets};
ghost use Rattle.laws.specs.Table.{table};
ghost use Rattle.rows.specs.Rows.{put_row, class_number, register_of, first_eight, last_eight, recorder_row, first_eight_at, registers_at, last_eight_at, recorder_numbers, small_in, is_in, letter_in, class_numbered, register_in, identity_from, present_from, energy_from, demand_from, running_from, recorder_from, rate_in, header_from};

use block::Header;
use parts::number;
use quantity::{CentiKilowatts, KilowattHours, MilliwattHours, RegisterUnits};
use recorder::{Identity, Recorder};
use registers::{Demand, Energy, Present, Running};
use std::array;
use store::Class;

// ---- where a recorder's numbers stand in its row, and how many they are

pub const LETTER: usize = 0;

pub const CLASS: usize = LETTER + format::IDENTIFIER;

pub const WEIGHT: usize = CLASS + 1;

pub const TIME: usize = WEIGHT + 1;

pub const POWER: usize = TIME + 1;

pub const DAYS: usize = POWER + 1;

pub const TOTAL: usize = DAYS + 1;

pub const LAST: usize = TOTAL + 1;

pub const RATE: usize = LAST + 1;

pub const REGISTER: usize = RATE + 1;

pub const CURRENT: usize = REGISTER + block::RATES;

pub const PREVIOUS: usize = CURRENT + 1;

pub const CUMULATIVE: usize = PREVIOUS + 1;

pub const RESET: usize = CUMULATIVE + 1;

pub const RESETS: usize = RESET + 1;

pub const BASE: usize = RESETS + 1;

pub const REVERSE: usize = BASE + 1;

pub const LEVEL2: usize = REVERSE + 1;

pub const NUMBERS: usize = LEVEL2 + 1;

// ---- a recorder as a row

fn class_number(class: Class) -> u64
    ensures { result ≡ class_number class }
{
    match class {
        Class::A => 1,
        Class::B => 2,
        Class::C => 3,
        Class::D => 4,
        Class::Blank => 0,
    }
}

fn put_registers(out: &mut [u64], rates: [MilliwattHours; 8])
    requires { recorder_numbers ≤ length out.old }
    ensures { out.new ≡ sets out.old registers_at (table 8 (register_of rates)) }
{
    for i in 0..block::RATES {
        out[REGISTER + i] = rates[i].0;
    }
}

fn put_first(out: &mut [u64], r: Recorder)
    requires { recorder_numbers ≤ length out.old }
    ensures { out.new ≡ sets out.old first_eight_at (first_eight r) }
{
    out[CLASS..REGISTER].copy_from_slice(&[
        class_number(r.identity.class),
        r.identity.weight.0,
        r.clock.time,
        u64::from(r.clock.on),
        r.clock.days as u64,
        r.energy.total.0,
        r.energy.last as u64,
        r.energy.rate as u64,
    ]);
}

fn put_last(out: &mut [u64], r: Recorder)
    requires { recorder_numbers ≤ length out.old }
    ensures { out.new ≡ sets out.old last_eight_at (last_eight r) }
{
    out[CURRENT..NUMBERS].copy_from_slice(&[
        r.demand.current.0,
        r.demand.previous.0,
        r.demand.cumulative.0,
        r.demand.reset as u64,
        r.demand.count as u64,
        r.running.base.0,
        u64::from(r.running.reverse),
        u64::from(r.running.level2),
    ]);
}

fn recorder_row(r: Recorder) -> [u64; NUMBERS]
    ensures { result ≡ recorder_row r }
{
    let mut row = [0; NUMBERS];
    format::put_letters(&mut row, r.identity.identifier);
    put_first(&mut row, r);
    put_registers(&mut row, r.energy.rates);
    put_last(&mut row, r);
    row
}

// The recorder's row at the beginning of the output.
pub fn put_recorder(out: &mut [u64], r: Recorder)
    ensures { out.new ≡ put_row out.old (recorder_row r) }
{
    if NUMBERS <= out.len() {
        out[..NUMBERS].copy_from_slice(&recorder_row(r));
    }
}

// ---- fields out of a row

fn small(row: &[u64], i: usize) -> u32
    ensures { result ≡ small_in row.now i }
{
    (number(row, i) % (1 << 32)) as u32
}

fn is_set(row: &[u64], i: usize) -> bool
    ensures { result ≡ is_in row.now i }
{
    number(row, i) == 1
}

#[tactic(auto, unfolding(crate::specs::Rows::letter_in))]
fn letter(row: &[u64], i: usize) -> u8
    ensures { result ≡ letter_in row.now i }
{
    (number(row, i) % 256) as u8
}

fn letters(row: &[u64]) -> [u8; 12]
    ensures { result ≡ table 12 (letter_in row.now) }
{
    array::from_fn(|i| letter(row, i))
}

// The class with a number, none for any but four.
#[tactic(auto, unfolding(crate::specs::Rows::class_numbered))]
pub fn class_numbered(n: u64) -> Class
    ensures { result ≡ class_numbered n }
{
    match n {
        1 => Class::A,
        2 => Class::B,
        3 => Class::C,
        4 => Class::D,
        _ => Class::Blank,
    }
}

// ---- a recorder out of its row

fn identity(row: &[u64]) -> Identity
    ensures { result ≡ identity_from row.now }
{
    Identity {
        identifier: letters(row),
        class: class_numbered(number(row, CLASS)),
        weight: MilliwattHours(number(row, WEIGHT)),
    }
}

fn present(row: &[u64]) -> Present
    ensures { result ≡ present_from row.now }
{
    Present {
        time: number(row, TIME),
        on: is_set(row, POWER),
        days: small(row, DAYS),
    }
}

fn registers(row: &[u64]) -> [MilliwattHours; 8]
    ensures { result ≡ table 8 (register_in row.now) }
{
    array::from_fn(|i| MilliwattHours(number(row, REGISTER + i)))
}

fn energy(row: &[u64]) -> Energy
    ensures { result ≡ energy_from row.now }
{
    Energy {
        total: MilliwattHours(number(row, TOTAL)),
        last: small(row, LAST),
        rate: small(row, RATE),
        rates: registers(row),
    }
}

fn demand(row: &[u64]) -> Demand
    ensures { result ≡ demand_from row.now }
{
    Demand {
        current: CentiKilowatts(number(row, CURRENT)),
        previous: CentiKilowatts(number(row, PREVIOUS)),
        cumulative: CentiKilowatts(number(row, CUMULATIVE)),
        reset: small(row, RESET),
        count: small(row, RESETS),
    }
}

fn running(row: &[u64]) -> Running
    ensures { result ≡ running_from row.now }
{
    Running {
        base: RegisterUnits(number(row, BASE)),
        reverse: is_set(row, REVERSE),
        level2: is_set(row, LEVEL2),
    }
}

#[tactic(auto, unfolding(crate::specs::Rows::recorder_from))]
pub fn recorder(row: &[u64]) -> Recorder
    ensures { result ≡ recorder_from row.now }
{
    Recorder {
        identity: identity(row),
        clock: present(row),
        energy: energy(row),
        demand: demand(row),
        running: running(row),
    }
}

// ---- a header out of its row

fn rates(row: &[u64]) -> [KilowattHours; 8]
    ensures { result ≡ table 8 (rate_in row.now) }
{
    array::from_fn(|i| KilowattHours(number(row, desk::HEAD_RATES + i)))
}

#[tactic(auto, unfolding(crate::specs::Rows::header_from))]
pub fn header(row: &[u64]) -> Header
    ensures { result ≡ header_from row.now }
{
    Header {
        identifier: letters(row),
        time: number(row, desk::HEAD_TIME),
        kwh: KilowattHours(number(row, desk::HEAD_KWH)),
        current: CentiKilowatts(number(row, desk::HEAD_CURRENT)),
        previous: CentiKilowatts(number(row, desk::HEAD_PREVIOUS)),
        cumulative: CentiKilowatts(number(row, desk::HEAD_CUMULATIVE)),
        reset: small(row, desk::HEAD_RESET),
        count: small(row, desk::HEAD_RESETS),
        rates: rates(row),
    }
}
