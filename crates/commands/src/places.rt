// The fields that `poke` and `given` change, by their names: where each lies, how many there are of it, and the largest number that it takes.
use crate::words::Words;
use memory::Change;
use script::names;

// ---- what a field takes at the most: a mark, a class, a byte, 32 bits, all that a word may name

const BIT: u64 = 1;

const CLASSES: u64 = 4;

const BYTE: u64 = 255;

const SMALL: u64 = 4294967295;

const LARGE: u64 = u64::MAX;

// Field i of so many, from a place of the row on.
fn number(from: usize, i: usize, count: usize, n: u64, most: u64) -> Option<Change> {
    if count <= i || most < n {
        return None;
    }
    Some(Change::Number(from.checked_add(i)?, n))
}

fn value(i: usize, n: u64) -> Option<Change> {
    Some(Change::Value(i, u16::try_from(n).ok()?))
}

fn start(i: usize, n: u64) -> Option<Change> {
    Some(Change::Start(i, u32::try_from(n).ok()?))
}

// ---- the recorder, its store, and whether a table is loaded

// `poke NAME N`.
fn poked_one(name: u64, n: u64) -> Option<Change> {
    let (at, most) = match name {
        names::CLASS => (rows::CLASS, CLASSES),
        names::WEIGHT => (rows::WEIGHT, SMALL),
        names::TIME => (rows::TIME, LARGE),
        names::POWER => (rows::POWER, BIT),
        names::DAYS => (rows::DAYS, SMALL),
        names::TOTAL => (rows::TOTAL, LARGE),
        names::LAST => (rows::LAST, SMALL),
        names::RATE => (rows::RATE, SMALL),
        names::CURRENT => (rows::CURRENT, SMALL),
        names::PREVIOUS => (rows::PREVIOUS, SMALL),
        names::SUMMED => (rows::CUMULATIVE, SMALL),
        names::RESET => (rows::RESET, SMALL),
        names::RESETS => (rows::RESETS, SMALL),
        names::BASE => (rows::BASE, SMALL),
        names::REVERSE => (rows::REVERSE, BIT),
        names::LEVEL2 => (rows::LEVEL2, BIT),
        names::LOADED => (station::LOADED, BIT),
        _ => return None,
    };
    number(at, 0, 1, n, most)
}

// `poke NAME I N`: the store's elements are there as far as they are lent.
fn poked_of(name: u64, i: usize, n: u64) -> Option<Change> {
    match name {
        names::LETTER => number(rows::LETTER, i, format::IDENTIFIER, n, BYTE),
        names::REGISTER => number(rows::REGISTER, i.checked_sub(1)?, block::RATES, n, LARGE),
        names::VALUE => value(i, n),
        names::START => start(i, n),
        names::MARK => Some(Change::Mark(i, n)),
        _ => None,
    }
}

pub fn poked(words: Words<'_>) -> Option<Change> {
    match words.count() {
        2 => poked_one(words.name(1), words.number(2)?),
        3 => poked_of(words.name(1), words.index(2)?, words.number(3)?),
        _ => None,
    }
}

// ---- the given fields: a header, and days, newest first

// `given NAME N`.
fn given_one(name: u64, n: u64) -> Option<Change> {
    let (at, most) = match name {
        names::TIME => (desk::HEAD_TIME, LARGE),
        names::KWH => (desk::HEAD_KWH, SMALL),
        names::CURRENT => (desk::HEAD_CURRENT, SMALL),
        names::PREVIOUS => (desk::HEAD_PREVIOUS, SMALL),
        names::SUMMED => (desk::HEAD_CUMULATIVE, SMALL),
        names::RESET => (desk::HEAD_RESET, SMALL),
        names::RESETS => (desk::HEAD_RESETS, SMALL),
        names::DAYS => (desk::HEAD_DAYS, SMALL),
        _ => return None,
    };
    number(at, 0, 1, n, most)
}

// `given NAME I N`: of a day its start, and its words of marks.
fn given_of(name: u64, i: usize, n: u64) -> Option<Change> {
    match name {
        names::LETTER => number(0, i, format::IDENTIFIER, n, BYTE),
        names::REGISTER => number(desk::HEAD_RATES, i.checked_sub(1)?, block::RATES, n, SMALL),
        names::START => start(i, n),
        names::FLAGS => mark(i, marks::FLAGS_WORD, n),
        names::REVERSED => mark(i, 0, n),
        names::LEVEL2 => mark(i, marks::LEVEL2_WORD, n),
        _ => None,
    }
}

fn mark(day: usize, word: usize, n: u64) -> Option<Change> {
    Some(Change::Mark(element(day, marks::DAY_WORDS, word)?, n))
}

// `given value I J N`: half-hour J of day I.
fn given_value(name: u64, day: usize, half: usize, n: u64) -> Option<Change> {
    if name != names::VALUE {
        return None;
    }
    value(element(day, block::HALVES, half)?, n)
}

// Element j of the so many that each given day has.
fn element(day: usize, count: usize, j: usize) -> Option<usize> {
    if memory::GIVEN_DAYS <= day || count <= j {
        return None;
    }
    count.checked_mul(day)?.checked_add(j)
}

pub fn given(words: Words<'_>) -> Option<Change> {
    let name = words.name(1);
    match words.count() {
        2 => given_one(name, words.number(2)?),
        3 => given_of(name, words.index(2)?, words.number(3)?),
        4 => given_value(name, words.index(2)?, words.index(3)?, words.number(4)?),
        _ => None,
    }
}
