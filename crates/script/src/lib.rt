// The words of a script, and what they name: numbers, days, times, bytes in hexadecimal; `names` has the words themselves. Every function has an
// answer for every input.
#![tactic(auto)]

mod hexadecimal;
pub mod names;

ghost use Rattle.std.specs.Prelude.{◌≡◌, IfSome, max, ◌+◌, ◌<◌, ◌≤◌, length, drop};
ghost use Rattle.script.specs.Words.{index_of, line_end, after, word_at, arguments_in, name_of};
ghost use Rattle.script.specs.Numbers.{number_of, small_of, six_of, if_date, day_named, second_named, joined, time_named};

pub use hexadecimal::{hex, unhex};

const SPACE: u8 = 32;

const NEWLINE: u8 = 10;

const AT: u8 = 64;

const MOST_LETTERS: usize = 8;

const MOST_DIGITS: usize = 18;

// ---- lines and words

// Where the byte b first stands from an index of the text on: the text's length where it does not.
fn find(text: &[u8], from: usize, b: u8) -> usize
    requires { from ≤ length text.now }
    ensures { (result ≡ from + index_of b (drop from text.now)) × (from ≤ result) × (result ≤ length text.now) }
{
    match text[from..].iter().position(|x| *x == b) {
        Some(i) => from + i,
        None => text.len(),
    }
}

// Where the line that begins at an index of the text ends.
#[tactic(auto, unfolding(crate::specs::Words::line_end))]
pub fn line_end(text: &[u8], from: usize) -> usize
    ensures { (result ≡ line_end text.now from) × (from ≤ result) × (result ≤ max from (length text.now)) }
{
    if text.len() < from {
        return from;
    }
    find(text, from, NEWLINE)
}

// How many words follow a line's first.
pub fn arguments(line: &[u8]) -> usize
    ensures { result ≡ arguments_in line.now }
{
    let mut n: usize = 0;
    for b in line {
        n += usize::from(*b == SPACE);
    }
    n
}

// Where word k of a line begins: its length where there is none.
fn word_start(line: &[u8], k: usize) -> usize
    ensures { (result ≤ length line.now) × (drop result line.now ≡ after k line.now) }
{
    let mut from: usize = 0;
    for _j in 0..k {
        let end = find(line, from, SPACE);
        if end == line.len() {
            return end;
        }
        from = end + 1;
    }
    from
}

// Word k of a line, counted from 0; empty where there is none.
#[tactic(auto, unfolding(crate::specs::Words::word_at))]
pub fn word(line: &[u8], k: usize) -> &[u8]
    ensures { result.now ≡ word_at k line.now }
{
    let from = word_start(line, k);
    let end = find(line, from, SPACE);
    &line[from..end]
}

// A word of at most eight letters as one number: its bytes, the first one highest. 0 for any other.
#[tactic(auto, unfolding(crate::specs::Words::name_of))]
pub fn name(word: &[u8]) -> u64
    ensures { result ≡ name_of word.now }
{
    let n = word.len();
    if MOST_LETTERS < n {
        return 0;
    }
    format::be(word, 0, n)
}

// ---- numbers

#[tactic(auto, unfolding(crate::specs::Numbers::number_of))]
pub fn number(word: &[u8]) -> Option<u64>
    ensures { result ≡ number_of word.now }
{
    if word.is_empty() || MOST_DIGITS < word.len() {
        return None;
    }
    format::spelt(word, 0, word.len())
}

#[tactic(auto, unfolding(crate::specs::Numbers::small_of))]
pub fn number32(word: &[u8]) -> Option<u32>
    ensures { result ≡ small_of word.now }
{
    let n = number(word)?;
    u32::try_from(n).ok()
}

#[tactic(auto, unfolding(crate::specs::Numbers::six_of))]
fn six(word: &[u8]) -> Option<u64>
    ensures answer { result ≡ six_of word.now }
    ensures bound { IfSome result (λ x. x < 1000000) }
{
    if word.len() != 6 {
        return None;
    }
    format::spelt(word, 0, 6)
}

// ---- days and times

fn date(word: &[u8]) -> Option<u32>
    ensures { result ≡ if_date (six_of word.now) }
{
    let digits = six(word)?;
    calendar::day_on(digits as u32)
}

// The day that a word names.
#[tactic(auto, unfolding(crate::specs::Numbers::day_named, crate::specs::Numbers::six_of))]
pub fn day(word: &[u8]) -> Option<u32>
    ensures { result ≡ day_named word.now }
{
    if word.is_empty() {
        return None;
    }
    if word[0] == AT {
        return number32(&word[1..]);
    }
    date(word)
}

#[tactic(auto, unfolding(crate::specs::Numbers::second_named))]
fn second(word: &[u8]) -> Option<u64>
    ensures { result ≡ second_named word.now }
{
    if word.is_empty() {
        return None;
    }
    if word[0] == AT {
        return number(&word[1..]);
    }
    None
}

fn moment(date: &[u8], clock: &[u8]) -> Option<u64>
    ensures { result ≡ joined (six_of date.now) (six_of clock.now) }
{
    let d = six(date)?;
    let c = six(clock)?;
    calendar::time_on(d * 1000000 + c)
}

// The time that words of a line name, from word k to word l.
#[tactic(auto, unfolding(crate::specs::Numbers::time_named))]
pub fn time(line: &[u8], k: usize, l: usize) -> Option<u64>
    ensures { result ≡ time_named line.now k l }
{
    if l == k {
        return second(word(line, k));
    }
    if l < k || l - k != 1 {
        return None;
    }
    moment(word(line, k), word(line, l))
}

// ---- the words of a line as names, numbers and days

pub fn name_at(line: &[u8], k: usize) -> u64
    ensures { result ≡ name_of (word_at k line.now) }
{
    name(word(line, k))
}

pub fn number_at(line: &[u8], k: usize) -> Option<u64>
    ensures { result ≡ number_of (word_at k line.now) }
{
    number(word(line, k))
}

pub fn day_at(line: &[u8], k: usize) -> Option<u32>
    ensures { result ≡ day_named (word_at k line.now) }
{
    day(word(line, k))
}
