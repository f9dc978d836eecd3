// The static library for C: the crate desk under the names and the calling convention of desk/cop6.h, one call each.
#![tactic(auto)]

ghost use Rattle.std.specs.Prelude.{◌≡◌, ◌-◌};
ghost use Rattle.laws.specs.Table.{table};
ghost use Rattle.calendar.specs.Calendar.{date_of};
ghost use Rattle.calendar.specs.Digits.{date_digits, day_on};
ghost use Rattle.block.specs.Parse.{parse};
ghost use Rattle.block.specs.Answers.{answer_of};
ghost use Rattle.ledger.specs.Layout.{length_of};
ghost use Rattle.ledger.specs.Open.{open_of};
ghost use Rattle.ledger.specs.Asked.{missing_of};
ghost use Rattle.filing.specs.File.{file_of};
ghost use Rattle.lines.specs.Listing.{text_of, shown, shown_length};
ghost use Rattle.desk.specs.Numbers.{one_number, number_of, missing_number, flags_number, window_number, day_or_none};
ghost use Rattle.desk.specs.Given.{given, give_header, give_differs, give_identifier, give_summary, give_halves};
ghost use Rattle.desk.specs.Tables.{table_number, rate_number, give_week};

// The reader: 8, 9 with the offset, 10, or 0 with the days.
#[unsafe(no_mangle)]
pub extern "C" fn cop6_read(block: &[u8]) -> u64
    ensures { result ≡ number_of (answer_of (parse block.now)) }
{
    desk::cop6_read(block)
}

// The listing of a block as text; how many bytes it has, or 0 where it does not fit.
#[unsafe(no_mangle)]
pub extern "C" fn cop6_listing(block: &[u8], out: &mut [u8]) -> u64
    ensures { (out.new ≡ shown out.old (text_of (parse block.now))) × (result ≡ shown_length out.old (text_of (parse block.now))) }
{
    desk::cop6_listing(block, out)
}

// A block's header in a row of numbers: 8, 9 with the offset, 10, 7 with the room needed, or 0 with the days.
#[unsafe(no_mangle)]
pub extern "C" fn cop6_header(block: &[u8], out: &mut [u64]) -> u64
    ensures { given out.new result ≡ give_header block.now out.old }
{
    desk::cop6_header(block, out)
}

// The day number of YYMMDD.
#[unsafe(no_mangle)]
pub extern "C" fn cop6_day(date: u32) -> u32
    ensures { result ≡ day_or_none (day_on date) }
{
    desk::cop6_day(date)
}

// YYMMDD of a day number, 0 where there is no such day.
#[unsafe(no_mangle)]
pub extern "C" fn cop6_date(day: u32) -> u32
    ensures { result ≡ date_digits (date_of day) }
{
    desk::cop6_date(day)
}

// The bytes of a ledger of so many days.
#[unsafe(no_mangle)]
pub extern "C" fn cop6_ledger_length(days: u32) -> u64
    ensures { result ≡ length_of days }
{
    desk::cop6_ledger_length(days)
}

// Opens a ledger: 6, 4 or 0.
#[unsafe(no_mangle)]
pub extern "C" fn cop6_open(ledger: &mut [u8], identifier: &[u8], first: u32, days: u32) -> u64
    ensures { (ledger.new ≡ (open_of ledger.old identifier.now first days).ledger) × (result ≡ one_number (open_of ledger.old identifier.now first days).answer 0) }
{
    desk::cop6_open(ledger, identifier, first, days)
}

// Files a block: 4, 5, 8, 9 with the offset, 10, 11, 12, or 0 with the half-hours newly held.
#[unsafe(no_mangle)]
pub extern "C" fn cop6_file(ledger: &mut [u8], block: &[u8]) -> u64
    ensures { (ledger.new ≡ (file_of ledger.old block.now).ledger) × (result ≡ number_of (file_of ledger.old block.now).answer) }
{
    desk::cop6_file(ledger, block)
}

// Where a block differs from what the ledger holds, in four numbers: 4, 5, 8, 9 with the offset, 10, 11, 7 with the room needed, or 0 with 1 where it
// differs and 0 where it does not.
#[unsafe(no_mangle)]
pub extern "C" fn cop6_differs(ledger: &[u8], block: &[u8], out: &mut [u64]) -> u64
    ensures { given out.new result ≡ give_differs ledger.now block.now out.old }
{
    desk::cop6_differs(ledger, block, out)
}

// A ledger's identifier in twelve bytes: 4, 5, 7 with the room needed, or 0.
#[unsafe(no_mangle)]
pub extern "C" fn cop6_identifier(ledger: &[u8], out: &mut [u8]) -> u64
    ensures { given out.new result ≡ give_identifier ledger.now out.old }
{
    desk::cop6_identifier(ledger, out)
}

// The window of a ledger: 4, 5, or 0 with its first day and how many.
#[unsafe(no_mangle)]
pub extern "C" fn cop6_window(ledger: &[u8]) -> u64
    ensures { result ≡ window_number ledger.now }
{
    desk::cop6_window(ledger)
}

// What is missing of a day: 4, 5, 6, or 0 with the first half-hour and how many.
#[unsafe(no_mangle)]
pub extern "C" fn cop6_missing(ledger: &[u8], day: u32) -> u64
    ensures { result ≡ missing_number (missing_of ledger.now day) }
{
    desk::cop6_missing(ledger, day)
}

// A day's summary in six numbers: 4, 5, 6, 7 with the room needed, or 0.
#[unsafe(no_mangle)]
pub extern "C" fn cop6_summary(ledger: &[u8], day: u32, out: &mut [u64]) -> u64
    ensures { given out.new result ≡ give_summary ledger.now day out.old }
{
    desk::cop6_summary(ledger, day, out)
}

// A day's flags, 0 where they are not held: 4, 5, 6, or 0 with the flags.
#[unsafe(no_mangle)]
pub extern "C" fn cop6_flags(ledger: &[u8], day: u32) -> u64
    ensures { result ≡ flags_number ledger.now day }
{
    desk::cop6_flags(ledger, day)
}

// A day's half-hours, one number each: 4, 5, 6, 7 with the room needed, or 0 with how many are held.
#[unsafe(no_mangle)]
pub extern "C" fn cop6_halves(ledger: &[u8], day: u32, out: &mut [u64]) -> u64
    ensures { given out.new result ≡ give_halves ledger.now day out.old }
{
    desk::cop6_halves(ledger, day, out)
}

// A table judged: 6, 14 or 0.
#[unsafe(no_mangle)]
pub extern "C" fn cop6_table_judge(table: &[u8]) -> u64
    ensures { result ≡ table_number table.now }
{
    desk::table::cop6_table_judge(table)
}

// The rate at a second: 6 for the time, or the table; 14; or 0 with the rate.
#[unsafe(no_mangle)]
pub extern "C" fn cop6_table_rate(table: &[u8], time: u64) -> u64
    ensures { result ≡ rate_number table.now time }
{
    desk::table::cop6_table_rate(table, time)
}

// A week as text: 6 for the day, or the table; 14; 7 with the bytes of the text, or 0 with them.
#[unsafe(no_mangle)]
pub extern "C" fn cop6_table_week(table: &[u8], day: u32, out: &mut [u8]) -> u64
    ensures { given out.new result ≡ give_week table.now day out.old }
{
    desk::table::cop6_table_week(table, day, out)
}
