// What a script keeps from line to line, and lends: an outstation with its store and the room of its switching table, the given fields, blocks, a ledger, an editor's
// table. All of it is 0 at first, as the blank recorder has it; no heap is used. Every function takes any numbers.
#![tactic(auto)]

use store::Class;

// The most days of a store, and of a block.
pub const STORE_DAYS: usize = Class::DAYS_D as usize;

pub const GIVEN_DAYS: usize = block::MOST_DAYS;

// How many values and marks the longest store has, and the given days have.
pub const VALUES: usize = block::HALVES * STORE_DAYS;

pub const MARKS: usize = marks::DAY_WORDS * STORE_DAYS;

const GIVEN_VALUES: usize = block::HALVES * GIVEN_DAYS;

const GIVEN_MARKS: usize = marks::DAY_WORDS * GIVEN_DAYS;

// An outstation's numbers, as `station` has them.
const ROW: usize = station::SINGLE + 1;

// How many blocks are kept, and the longest one.
pub const SHELVES: usize = 32;

pub const LONGEST: usize = block::LONGEST;

pub const LONGEST_LEDGER: usize = ledger::LONGEST;

// A switching table, and one byte more, to lend too many.
pub const TABLE: usize = tariff::TABLE + 1;

pub type Table = [u8; TABLE];

// An outstation's numbers; and the values, the starts and the marks of the longest store.
pub type Row = [u64; ROW];

pub type Values = [u16; VALUES];

pub type Starts = [u32; STORE_DAYS];

pub type Marks = [u64; MARKS];

// The answer of what can't be refused, as the library for C has answers.
pub const DONE: u64 = 0;

// ---- parts of what is lent

// The first n elements, or as many as there are.
pub fn first<T>(row: &mut [T], n: usize) -> &mut [T] {
    let n = n.min(row.len());
    &mut row[..n]
}

// An element becomes another, where it is there.
pub fn put<T: Drop>(row: &mut [T], i: usize, x: T) -> Option<()> {
    *row.get_mut(i)? = x;
    Some(())
}

// What a line changes: a number of a row, or an element of the values, the starts or the marks beside it, by its index, and what it becomes.
#[derive(Clone, Copy)]
pub enum Change {
    Number(usize, u64),
    Value(usize, u16),
    Start(usize, u32),
    Mark(usize, u64),
}

impl Change {
    fn make(
        self,
        row: &mut [u64],
        values: &mut [u16],
        starts: &mut [u32],
        marks: &mut [u64],
    ) -> Option<()> {
        match self {
            Change::Number(i, n) => put(row, i, n),
            Change::Value(i, n) => put(values, i, n),
            Change::Start(i, n) => put(starts, i, n),
            Change::Mark(i, n) => put(marks, i, n),
        }
    }
}

// ---- the outstation

// How many elements of the store's slices are lent.
#[derive(Clone, Copy)]
pub struct Lengths {
    pub values: usize,
    pub starts: usize,
    pub marks: usize,
}

// How the store is lent: as a class has it, or in the lengths of a `lend V S M` that stands.
#[derive(Clone, Copy)]
pub enum Lent {
    As(Class),
    In(Lengths),
}

impl Lent {
    pub fn lengths(self) -> Lengths {
        match self {
            Lent::As(class) => Lengths {
                values: class.values_len(),
                starts: class.starts_len(),
                marks: class.marks_len(),
            },
            Lent::In(lengths) => lengths,
        }
    }
}

#[derive(Drop)]
pub struct Outstation {
    pub row: Row,
    pub values: Values,
    pub starts: Starts,
    pub marks: Marks,
    pub table: Table,
    pub lent: Lent,
    // how many bytes of the table's room are lent
    pub table_lent: usize,
}

impl Outstation {
    const BLANK: Outstation = Outstation {
        row: [0; ROW],
        values: [0; VALUES],
        starts: [0; STORE_DAYS],
        marks: [0; MARKS],
        table: [0; TABLE],
        lent: Lent::As(Class::Blank),
        table_lent: tariff::TABLE,
    };

    // Its class by the number in the row.
    pub fn class(&self) -> Class {
        rows::class_numbered(self.row[rows::CLASS])
    }

    // A number of its row, or an element of the store, as it is lent.
    pub fn change(&mut self, change: Change) -> Option<()> {
        let lent = self.lent.lengths();
        change.make(
            &mut self.row,
            first(&mut self.values, lent.values),
            first(&mut self.starts, lent.starts),
            first(&mut self.marks, lent.marks),
        )
    }

    pub fn lent_table(&self) -> &[u8] {
        parts::part(&self.table, 0, self.table_lent)
    }
}

// ---- the given fields, a header's row and days, newest first, in the store's shape

#[derive(Drop)]
pub struct Fields {
    pub header: [u64; desk::HEADER],
    pub values: [u16; GIVEN_VALUES],
    pub starts: [u32; GIVEN_DAYS],
    pub marks: [u64; GIVEN_MARKS],
}

impl Fields {
    const ZERO: Fields = Fields {
        header: [0; desk::HEADER],
        values: [0; GIVEN_VALUES],
        starts: [0; GIVEN_DAYS],
        marks: [0; GIVEN_MARKS],
    };

    pub fn change(&mut self, change: Change) -> Option<()> {
        change.make(
            &mut self.header,
            &mut self.values,
            &mut self.starts,
            &mut self.marks,
        )
    }
}

// ---- a block, and the ledger

// Room for N bytes, of which the first ones are lent.
#[derive(Clone, Copy)]
pub struct Buffer<const N: usize> {
    room: [u8; N],
    length: usize,
}

impl<const N: usize> Buffer<N> {
    pub fn bytes(&self) -> &[u8] {
        parts::part(&self.room, 0, self.length)
    }

    pub fn bytes_mut(&mut self) -> &mut [u8] {
        let n = self.length;
        first(&mut self.room, n)
    }

    // The first n bytes of the room, for what is written there.
    pub fn room(&mut self, n: usize) -> &mut [u8] {
        first(&mut self.room, n)
    }

    // From now on n bytes are lent.
    pub fn lend(&mut self, n: usize) {
        self.length = n.min(N);
    }

    // The same, with zeros behind those that were lent before.
    pub fn resize(&mut self, n: usize) {
        let before = self.length;
        self.lend(n);
        if let Some(behind) = self.bytes_mut().get_mut(before..) {
            behind.fill(0);
        }
    }

    // It gets other bytes, as many as it has room for.
    pub fn copy(&mut self, bytes: &[u8]) {
        self.lend(bytes.len());
        for (to, from) in self.bytes_mut().iter_mut().zip(bytes) {
            *to = *from;
        }
    }
}

pub type Block = Buffer<LONGEST>;

pub type Ledger = Buffer<LONGEST_LEDGER>;

#[derive(Clone, Copy)]
pub struct Blocks {
    pub kept: [Block; SHELVES],
    pub current: Block,
}

const NO_BLOCK: Block = Buffer {
    room: [0; LONGEST],
    length: 0,
};

const NO_LEDGER: Ledger = Buffer {
    room: [0; LONGEST_LEDGER],
    length: 0,
};

// ---- all of it

#[derive(Drop)]
pub struct Memory {
    pub outstation: Outstation,
    pub given: Fields,
    pub blocks: Blocks,
    pub ledger: Ledger,
    pub editor: Table,
}

impl Memory {
    pub const BLANK: Memory = Memory {
        outstation: Outstation::BLANK,
        given: Fields::ZERO,
        blocks: Blocks {
            kept: [NO_BLOCK; SHELVES],
            current: NO_BLOCK,
        },
        ledger: NO_LEDGER,
        editor: [0; TABLE],
    };
}
