// What a script's line asks for. Here its words become a command, once, with the numbers that they name; a line that breaks its command's limits is none, so that no
// other part of a program has to look at words.
#![tactic(auto)]

mod places;
mod words;

use memory::{Change, LONGEST, Lengths};
use recorder::Event;
use registers::Shift;
use script::names;
use tariff::Kind;
use words::Words;

// ---- commands, by what they may change

#[derive(Clone, Copy)]
pub enum Command<'a> {
    Meter(MeterCommand<'a>),
    Block(BlockCommand<'a>),
    Ledger(LedgerCommand<'a>),
    Editor(EditorCommand),
    Show(Shown),
}

// The class by its number, and whether it is single phase, as a recorder's row has them.
#[derive(Clone, Copy)]
pub struct SetUp<'a> {
    pub identifier: &'a [u8],
    pub class: u64,
    pub single: bool,
    pub weight: u32,
    pub time: u64,
    pub total: u64,
    pub counter: u32,
}

// Outstation, store, the room of its switching table; and the given fields. A load offers so many bytes of the editor's table.
#[derive(Clone, Copy)]
pub enum MeterCommand<'a> {
    SetUp(SetUp<'a>),
    Happen(Event),
    Load(usize),
    Single,
    LendAgain,
    Lend(Lengths),
    LendTable(usize),
    Poke(Change),
    PokeTable { at: usize, byte: u8 },
    Give(Change),
}

// Blocks: one is read or written into so much room, becomes the given fields, is spelt by a word, changed, kept or taken.
#[derive(Clone, Copy)]
pub enum BlockCommand<'a> {
    Read { days: u32, room: usize },
    Write { room: usize },
    Fields,
    Hex(&'a [u8]),
    Byte { at: usize, byte: u8 },
    Cut(usize),
    Keep(usize),
    Take(usize),
}

// The ledger: it is opened, the current block or a kept one is filed, so many bytes are lent, one of them is changed.
#[derive(Clone, Copy)]
pub enum LedgerCommand<'a> {
    Open {
        identifier: &'a [u8],
        first: u32,
        days: u32,
    },
    File,
    Deliver(usize),
    Lend(usize),
    Poke {
        at: usize,
        byte: u8,
    },
}

pub type Slot = [u8; tariff::SLOT];

// The editor's table, by its slots.
#[derive(Clone, Copy)]
pub enum EditorCommand {
    Blank,
    Add(Slot),
    Write { slot: usize, bytes: Slot },
    Swap(usize, usize),
}

#[derive(Clone, Copy)]
pub enum Shown {
    Recorder,
    Day(u32),
    Block,
    Check,
    Listing,
    Ledger,
    Summary(u32),
    Missing(u32),
    Table,
    RateAt(u64),
    Week(u32),
}

// ---- limits

const LAST_SLOT: usize = tariff::SLOTS - 1;

// The letters of MMDD and of YYMMDD.
const EVERY: usize = 4;

const DATED: usize = 6;

// ---- outstation, store and given fields

// The time is one word or two, so that the last words are counted from the end.
fn set_up(words: Words<'_>) -> Option<MeterCommand<'_>> {
    let n = words.count();
    let start = SetUp {
        identifier: words.identifier(1)?,
        class: words.class(2)?,
        single: words.is_single(3)?,
        weight: words.small(4)?,
        time: words.time(5, n.saturating_sub(2))?,
        total: words.number(n.saturating_sub(1))?,
        counter: words.small(n)?,
    };
    Some(MeterCommand::SetUp(start))
}

fn event(words: Words<'_>) -> Option<Event> {
    let n = words.count();
    match words.name(0) {
        names::CLOCK => Some(Event::Clock(words.time(1, n)?)),
        names::ON => Some(Event::On(words.time(1, n)?)),
        names::OFF => words.alone(Event::Off),
        names::ACCESS => words.alone(Event::Access),
        names::RESET => words.alone(Event::Reset),
        names::REVERSE => words.alone(Event::Reverse),
        _ => event_with(words.exactly(1)?),
    }
}

// The events with one word.
fn event_with(words: Words<'_>) -> Option<Event> {
    match words.name(0) {
        names::COUNT => Some(Event::Count(words.small(1)?)),
        names::METER => Some(Event::Meter(words.small(1)?)),
        names::RATE => Some(Event::Rate(words.small(1)?)),
        names::PPP => ppp(words.word(1)),
        names::ADJUST => Some(Event::Adjust(shift(words.word(1))?)),
        _ => None,
    }
}

fn ppp(word: &[u8]) -> Option<Event> {
    match word {
        [a, b, c] => Some(Event::Ppp(*a, *b, *c)),
        _ => None,
    }
}

// Seconds, back where a `-` stands before them.
fn shift(word: &[u8]) -> Option<Shift> {
    match word {
        [b'-', digits @ ..] => Some(Shift::Back(script::number32(digits)?)),
        _ => Some(Shift::Ahead(script::number32(word)?)),
    }
}

// All of the editor's table, or so many bytes.
fn load(words: Words<'_>) -> Option<MeterCommand<'_>> {
    match words.count() {
        0 => Some(MeterCommand::Load(tariff::TABLE)),
        1 => Some(MeterCommand::Load(words.up_to(1, memory::TABLE)?)),
        _ => None,
    }
}

fn lend_store(words: Words<'_>) -> Option<MeterCommand<'_>> {
    match words.count() {
        0 => Some(MeterCommand::LendAgain),
        3 => Some(MeterCommand::Lend(Lengths {
            values: words.up_to(1, memory::VALUES)?,
            starts: words.up_to(2, memory::STORE_DAYS)?,
            marks: words.up_to(3, memory::MARKS)?,
        })),
        _ => None,
    }
}

// `lend`, `lend table` and `lend ledger`.
fn lend(words: Words<'_>) -> Option<Command<'_>> {
    match words.name(1) {
        names::LEDGER => {
            let n = words.exactly(2)?.up_to(2, memory::LONGEST_LEDGER)?;
            Some(Command::Ledger(LedgerCommand::Lend(n)))
        }
        names::TABLE => {
            let n = words.exactly(2)?.up_to(2, memory::TABLE)?;
            Some(Command::Meter(MeterCommand::LendTable(n)))
        }
        _ => Some(Command::Meter(lend_store(words)?)),
    }
}

// `poke`, `poke table` and `poke ledger`.
fn poke(words: Words<'_>) -> Option<Command<'_>> {
    match words.name(1) {
        names::LEDGER => {
            let words = words.exactly(3)?;
            Some(Command::Ledger(LedgerCommand::Poke {
                at: words.index(2)?,
                byte: words.byte(3)?,
            }))
        }
        names::TABLE => {
            let words = words.exactly(3)?;
            Some(Command::Meter(MeterCommand::PokeTable {
                at: words.index(2)?,
                byte: words.byte(3)?,
            }))
        }
        _ => Some(Command::Meter(MeterCommand::Poke(places::poked(words)?))),
    }
}

fn to_meter(words: Words<'_>) -> Option<MeterCommand<'_>> {
    match words.name(0) {
        names::SETUP => set_up(words),
        names::SINGLE => words.alone(MeterCommand::Single),
        names::LOAD => load(words),
        names::GIVEN => Some(MeterCommand::Give(places::given(words)?)),
        _ => Some(MeterCommand::Happen(event(words)?)),
    }
}

// ---- blocks

// `read N` has the longest room, `read N ROOM` the one that it names.
fn read_out(words: Words<'_>) -> Option<BlockCommand<'_>> {
    let room = match words.count() {
        1 => LONGEST,
        2 => words.up_to(2, LONGEST)?,
        _ => return None,
    };
    Some(BlockCommand::Read {
        days: words.small(1)?,
        room,
    })
}

// The commands with one word.
fn block_with(words: Words<'_>) -> Option<BlockCommand<'_>> {
    match words.name(0) {
        names::WRITE => Some(BlockCommand::Write {
            room: words.up_to(1, LONGEST)?,
        }),
        names::HEX => Some(BlockCommand::Hex(words.word(1))),
        names::CUT => Some(BlockCommand::Cut(words.up_to(1, LONGEST)?)),
        names::KEEP => Some(BlockCommand::Keep(words.index(1)?)),
        names::TAKE => Some(BlockCommand::Take(words.index(1)?)),
        _ => None,
    }
}

fn to_block(words: Words<'_>) -> Option<BlockCommand<'_>> {
    match words.name(0) {
        names::READ => read_out(words),
        names::FIELDS => words.alone(BlockCommand::Fields),
        names::BYTE => {
            let words = words.exactly(2)?;
            Some(BlockCommand::Byte {
                at: words.index(1)?,
                byte: words.byte(2)?,
            })
        }
        _ => block_with(words.exactly(1)?),
    }
}

// ---- the ledger

fn open(words: Words<'_>) -> Option<LedgerCommand<'_>> {
    let words = words.exactly(3)?;
    Some(LedgerCommand::Open {
        identifier: words.identifier(1)?,
        first: words.day(2)?,
        days: words.small(3)?,
    })
}

fn to_ledger(words: Words<'_>) -> Option<LedgerCommand<'_>> {
    match words.name(0) {
        names::OPEN => open(words),
        names::FILE => words.alone(LedgerCommand::File),
        names::DELIVER => Some(LedgerCommand::Deliver(words.exactly(1)?.index(1)?)),
        _ => None,
    }
}

// ---- an editor's table

// `at T hhmm R`.
fn switching_time(words: Words<'_>) -> Option<Slot> {
    let words = words.exactly(3)?;
    let time = words.number(2)?;
    let hour = u8::try_from(time / 100).ok()?;
    Some([
        Kind::Time as u8,
        words.byte(1)?,
        hour,
        (time % 100) as u8,
        words.byte(3)?,
    ])
}

// `except T MMDD` or `except T YYMMDD`.
fn exception(words: Words<'_>) -> Option<Slot> {
    let words = words.exactly(2)?;
    let date = words.number(2)?;
    let year = match words.word(2).len() {
        EVERY => tariff::EVERY_YEAR,
        DATED => (date / 10000 % 100) as u8,
        _ => return None,
    };
    Some([
        Kind::Exception as u8,
        words.byte(1)?,
        year,
        (date / 100 % 100) as u8,
        (date % 100) as u8,
    ])
}

fn weekdays(words: Words<'_>) -> Option<Slot> {
    let words = words.exactly(3)?;
    Some([
        Kind::Weekdays as u8,
        words.byte(1)?,
        words.byte(2)?,
        words.byte(3)?,
        0,
    ])
}

// `slot I K T X Y Z`.
fn slot(words: Words<'_>) -> Option<EditorCommand> {
    let words = words.exactly(6)?;
    let bytes = [
        words.byte(2)?,
        words.byte(3)?,
        words.byte(4)?,
        words.byte(5)?,
        words.byte(6)?,
    ];
    Some(EditorCommand::Write {
        slot: words.up_to(1, LAST_SLOT)?,
        bytes,
    })
}

fn swap(words: Words<'_>) -> Option<EditorCommand> {
    let words = words.exactly(2)?;
    Some(EditorCommand::Swap(words.up_to(1, LAST_SLOT)?, words.up_to(2, LAST_SLOT)?))
}

fn to_editor(words: Words<'_>) -> Option<EditorCommand> {
    match words.name(0) {
        names::BLANK => words.alone(EditorCommand::Blank),
        names::AT => Some(EditorCommand::Add(switching_time(words)?)),
        names::EXCEPT => Some(EditorCommand::Add(exception(words)?)),
        names::WEEKDAYS => Some(EditorCommand::Add(weekdays(words)?)),
        names::DEFAULT => {
            let day_type = words.exactly(1)?.byte(1)?;
            Some(EditorCommand::Add([Kind::Default as u8, day_type, 0, 0, 0]))
        }
        names::SLOT => slot(words),
        names::SWAP => swap(words),
        _ => None,
    }
}

// ---- what is shown

fn to_show(words: Words<'_>) -> Option<Shown> {
    match words.name(0) {
        names::SHOW => words.alone(Shown::Recorder),
        names::BLOCK => words.alone(Shown::Block),
        names::CHECK => words.alone(Shown::Check),
        names::LISTING => words.alone(Shown::Listing),
        names::LEDGER => words.alone(Shown::Ledger),
        names::TABLE => words.alone(Shown::Table),
        names::RATEAT => Some(Shown::RateAt(words.time(1, words.count())?)),
        _ => day_to_show(words.exactly(1)?),
    }
}

fn day_to_show(words: Words<'_>) -> Option<Shown> {
    let day = words.day(1)?;
    match words.name(0) {
        names::DAY => Some(Shown::Day(day)),
        names::SUMMARY => Some(Shown::Summary(day)),
        names::MISSING => Some(Shown::Missing(day)),
        names::WEEK => Some(Shown::Week(day)),
        _ => None,
    }
}

// ---- a line

pub fn read(line: &[u8]) -> Option<Command<'_>> {
    let words = Words::of(line);
    match words.name(0) {
        names::LEND => lend(words),
        names::POKE => poke(words),
        names::READ
        | names::WRITE
        | names::FIELDS
        | names::HEX
        | names::BYTE
        | names::CUT
        | names::KEEP
        | names::TAKE => Some(Command::Block(to_block(words)?)),
        names::OPEN | names::FILE | names::DELIVER => Some(Command::Ledger(to_ledger(words)?)),
        names::BLANK
        | names::AT
        | names::EXCEPT
        | names::WEEKDAYS
        | names::DEFAULT
        | names::SLOT
        | names::SWAP => Some(Command::Editor(to_editor(words)?)),
        names::SHOW
        | names::DAY
        | names::BLOCK
        | names::CHECK
        | names::LISTING
        | names::LEDGER
        | names::SUMMARY
        | names::MISSING
        | names::TABLE
        | names::RATEAT
        | names::WEEK => Some(Command::Show(to_show(words)?)),
        _ => Some(Command::Meter(to_meter(words)?)),
    }
}
