// An outstation that is a row of numbers: it is set up, takes what happens and is read out, and a header's row is written. Each answers one number, as the
// library for C does. Every function takes any row and any memory.
#![tactic(auto)]

ghost use Rattle.std.specs.Prelude.{◌≡◌};
ghost use Rattle.store.specs.Store.{store};
ghost use Rattle.desk.specs.Given.{given};
ghost use Rattle.outstation.specs.Outstation.{happening};
ghost use Rattle.station.specs.Station.{left, tells_in, phase_in, outstation_in, put_tells, put_outstation, set_up_in, happens_in, read_in, write_in};

use outstation::{Happening, Outstation, Phase};
use recorder::SetUp;

// Behind the recorder's numbers: 1 where a switching table is loaded, and 1 where it is single phase.
pub const LOADED: usize = rows::NUMBERS;

pub const SINGLE: usize = LOADED + 1;

// Whether a number says so.
#[tactic(auto, unfolding(parts::specs::Rows::number_in))]
fn tells(row: &[u64], at: usize) -> bool
    ensures { result ≡ tells_in row.now at }
{
    parts::number(row, at) == 1
}

fn phase(row: &[u64]) -> Phase
    ensures { result ≡ phase_in row.now }
{
    if tells(row, SINGLE) {
        Phase::Single
    } else {
        Phase::Poly
    }
}

fn outstation(row: &[u64]) -> Outstation
    ensures { result ≡ outstation_in row.now }
{
    Outstation {
        recorder: rows::recorder(row),
        loaded: tells(row, LOADED),
        phase: phase(row),
    }
}

fn put_tells(row: &mut [u64], at: usize, so: bool)
    ensures { row.new ≡ put_tells row.old at so }
{
    if at < row.len() {
        row[at] = u64::from(so);
    }
}

fn put_outstation(row: &mut [u64], o: Outstation)
    ensures { row.new ≡ put_outstation row.old o }
{
    rows::put_recorder(row, o.recorder);
    put_tells(row, LOADED, o.loaded);
    put_tells(row, SINGLE, o.phase == Phase::Single);
}

// The numbers of a row are what the recorder is set up with.
pub fn set_up(
    row: &mut [u64],
    values: &mut [u16],
    starts: &mut [u32],
    marks: &mut [u64],
    table: &mut [u8],
) -> u64
    ensures { left result row.new values.new starts.new marks.new table.new
        ≡ set_up_in row.old (store values.old starts.old marks.old) table.old }
{
    let r = rows::recorder(row);
    let identifier = r.identity.identifier;
    let given = SetUp {
        identifier,
        class: r.identity.class,
        weight: r.identity.weight,
        time: r.clock.time,
        total: r.energy.total,
        counter: r.energy.last,
    };
    let (o, done) = Outstation::set_up(given, phase(row), values, starts, marks, table);
    put_outstation(row, o);
    desk::number(done.and(Ok(0)))
}

// An event, a load of the table that is offered, or that it becomes single phase.
pub fn happens(
    row: &mut [u64],
    what: Happening,
    offered: &[u8],
    values: &mut [u16],
    starts: &mut [u32],
    marks: &mut [u64],
    table: &mut [u8],
) -> u64
    ensures { left result row.new values.new starts.new marks.new table.new
        ≡ happens_in row.old (happening what offered.now) (store values.old starts.old marks.old) table.old }
{
    let mut o = outstation(row);
    let done = o.happens(what, offered, values, starts, marks, table);
    put_outstation(row, o);
    desk::number(done.and(Ok(0)))
}

// A read of so many days.
pub fn read(
    row: &[u64],
    days: u32,
    values: &[u16],
    starts: &[u32],
    marks: &[u64],
    out: &mut [u8],
) -> u64
    ensures { given out.new result
        ≡ read_in row.now days (store values.now starts.now marks.now) out.old }
{
    let read = readout::read(&rows::recorder(row), days, values, starts, marks, out);
    desk::number(read.map(u64::from))
}

// A block written from a header's row and so many days, newest first.
pub fn write(
    row: &[u64],
    days: u32,
    values: &[u16],
    starts: &[u32],
    marks: &[u64],
    out: &mut [u8],
) -> u64
    ensures { given out.new result
        ≡ write_in row.now days (store values.now starts.now marks.now) out.old }
{
    let written = writer::write(rows::header(row), days, values, starts, marks, out);
    desk::number(written.map(u64::from))
}
