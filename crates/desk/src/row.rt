// Rows of numbers, or of characters, at the beginning of an output that C lends.
ghost use Rattle.std.specs.Prelude.{◌≡◌, ◌<◌, ◌≤◌, MatchResult, Ok, length};
ghost use Rattle.std.proofs.lemmas.List.Edits.{sets};
ghost use Rattle.laws.specs.Table.{table};
ghost use Rattle.ledger.specs.Asked.{summary_as};
ghost use Rattle.filing.specs.Differs.{difference_as};
ghost use Rattle.desk.specs.Given.{header_numbers, totals_row, rate_of, header_row, difference_row, summary_row};

use crate::{DIFFERENCE, HEAD_DAYS, HEAD_RATES, HEAD_TIME, HEADER, SUMMARY};
use answers::Refusal;
use block::Header;
use filing::Difference;
use ledger::Summary;
use quantity::KilowattHours;

// The row, where the output has room for it: 7 carries the room needed.
pub fn give<T: Copy>(out: &mut [T], row: &[T]) -> Result<(), Refusal>
    requires { length row.now < 4294967296 }
    ensures { MatchResult result
        (λ _. (length row.now ≤ length out.old) × (out.new ≡ sets out.old 0 row.now))
        (λ r. (length out.old < length row.now) × (out.new ≡ out.old) × (r ≡ Refusal.Short (length row.now))) }
{
    let n = row.len();
    if out.len() < n {
        return Err(Refusal::Short(n as u32));
    }
    out[..n].copy_from_slice(row);
    Ok(())
}

fn put_totals(row: &mut [u64], h: Header)
    requires { header_numbers ≤ length row.old }
    ensures { row.new ≡ sets row.old 12 (totals_row h) }
{
    row[HEAD_TIME..HEAD_RATES].copy_from_slice(&[
        h.time,
        h.kwh.0,
        h.current.0,
        h.previous.0,
        h.cumulative.0,
        h.reset as u64,
        h.count as u64,
    ]);
}

fn put_rates(row: &mut [u64], rates: [KilowattHours; 8])
    requires { header_numbers ≤ length row.old }
    ensures { row.new ≡ sets row.old 19 (table 8 (rate_of rates)) }
{
    for i in 0..block::RATES {
        row[HEAD_RATES + i] = rates[i].0;
    }
}

// A block's header, in the block's order, and the number of its days.
pub fn header_row(h: Header, days: u32) -> [u64; HEADER]
    ensures { result ≡ header_row h days }
{
    let mut row = [0; HEADER];
    format::put_letters(&mut row, h.identifier);
    put_totals(&mut row, h);
    put_rates(&mut row, h.rates);
    row[HEAD_DAYS] = days as u64;
    row
}

// Where a block differs from what is held, zeros where it does not.
pub fn difference_row(found: Option<Difference>) -> [u64; DIFFERENCE]
    ensures { result ≡ difference_row (difference_as (Ok found)) }
{
    match found {
        Some(x) => [x.day as u64, x.part as u64, x.held, x.sent],
        None => [0; DIFFERENCE],
    }
}

// What is held of a day, zeros where nothing is.
pub fn summary_row(found: Option<Summary>) -> [u64; SUMMARY]
    ensures { result ≡ summary_row (summary_as (Ok found)) }
{
    match found {
        Some(s) => [
            1,
            s.count as u64,
            s.start.0,
            s.advance.0,
            s.reverse as u64,
            s.level2 as u64,
        ],
        None => [0; SUMMARY],
    }
}
