// An editor's switching table, as a script writes it (docs/TARIFF.md has the bytes): an entry goes into the first unused slot, two slots change places, a slot is written
// by hand. Nothing is judged here. Every function takes any table, and has no answer where there is no such slot.
#![tactic(auto)]

use commands::{EditorCommand, Slot};
use memory::{DONE, Table};
use tariff::{Kind, SLOT, SLOTS};

// The first slot that is unused.
fn unused(table: &Table) -> Option<usize> {
    table.chunks_exact(SLOT).position(|slot| slot
        .first()
        .is_some_and(|kind| *kind == Kind::Unused as u8))
}

fn write(table: &mut Table, i: usize, bytes: Slot) -> Option<u64> {
    if SLOTS <= i {
        return None;
    }
    table[SLOT * i..SLOT * i + SLOT].copy_from_slice(&bytes);
    Some(DONE)
}

// An entry into the first unused slot; which slot that is.
fn add(table: &mut Table, bytes: Slot) -> Option<u64> {
    let i = unused(table)?;
    write(table, i, bytes)?;
    Some(i as u64)
}

fn swap(table: &mut Table, i: usize, j: usize) -> Option<u64> {
    if SLOTS <= i || SLOTS <= j {
        return None;
    }
    for k in 0..SLOT {
        table.swap(SLOT * i + k, SLOT * j + k);
    }
    Some(DONE)
}

// What a command answers, as one number.
pub fn answered(command: EditorCommand, table: &mut Table) -> Option<u64> {
    match command {
        EditorCommand::Blank => {
            table.fill(0);
            Some(DONE)
        }
        EditorCommand::Add(bytes) => add(table, bytes),
        EditorCommand::Write { slot, bytes } => write(table, slot, bytes),
        EditorCommand::Swap(i, j) => swap(table, i, j),
    }
}
