// Tariff switching tables for C, as docs/TARIFF.md has them: a table is one slice of bytes, a file as it is, and every call judges all of it.
ghost use Rattle.std.specs.Prelude.{◌≡◌};
ghost use Rattle.answers.specs.Answer.{answered};
ghost use Rattle.desk.specs.Given.{given};
ghost use Rattle.desk.specs.Numbers.{number_of};
ghost use Rattle.desk.specs.Tables.{table_number, rate_number, give_week};

use crate::number;
use answers::Refusal;

// A table judged: 6, 14 or 0.
pub fn cop6_table_judge(table: &[u8]) -> u64
    ensures { result ≡ table_number table.now }
{
    number(tariff::judge(table).and(Ok(0)))
}

fn rate(table: &[u8], time: u64) -> Result<u64, Refusal>
    ensures { number_of (answered result) ≡ rate_number table.now time }
{
    if calendar::TIMES_IN_ALL <= time {
        return Err(Refusal::Range);
    }
    tariff::judge(table)?;
    Ok(tariff::rate_at(table, time) as u64)
}

// The rate at a second: 6 for the time, or the table; 14; or 0 with the rate.
pub fn cop6_table_rate(table: &[u8], time: u64) -> u64
    ensures { result ≡ rate_number table.now time }
{
    number(rate(table, time))
}

// A week as text: 6 for the day, or the table; 14; 7 with the bytes of the text, or 0 with them.
pub fn cop6_table_week(table: &[u8], day: u32, out: &mut [u8]) -> u64
    ensures { given out.new result ≡ give_week table.now day out.old }
{
    number(drawn::week(table, day, out).map(u64::from))
}
