// A script's outstation, its store and the room of its switching table: how they are lent, a set-up, the events, and what is changed by hand, there and in the given
// fields. Every function takes any memory, and answers one number, as the library for C does; there is no answer where what is to be changed is not there.
#![tactic(auto)]

use commands::{MeterCommand, SetUp};
use memory::{DONE, Lengths, Lent, Memory, Outstation, Table, first};
use outstation::Happening;
use recorder::Event;

// ---- how the store is lent

// `lend`: as the recorder's class has it, and the whole room of the table.
fn lend_again(outstation: &mut Outstation) -> u64 {
    outstation.lent = Lent::As(outstation.class());
    outstation.table_lent = tariff::TABLE;
    DONE
}

// `lend V S M`.
fn lend(lengths: Lengths, outstation: &mut Outstation) -> u64 {
    outstation.lent = Lent::In(lengths);
    DONE
}

// `lend table N`.
fn lend_table(n: usize, outstation: &mut Outstation) -> u64 {
    outstation.table_lent = n;
    DONE
}

// ---- a set-up or an event, with the store as it is lent

// What a recorder is set up with lies in its row, and the store is lent as its class has it, unless a `lend V S M` stands.
fn keep_start(start: SetUp<'_>, outstation: &mut Outstation) {
    let row = &mut outstation.row;
    parts::from8(&mut row[rows::LETTER..rows::CLASS], start.identifier);
    row[rows::CLASS] = start.class;
    row[rows::WEIGHT] = u64::from(start.weight);
    row[rows::TIME] = start.time;
    row[rows::TOTAL] = start.total;
    row[rows::LAST] = u64::from(start.counter);
    row[station::SINGLE] = u64::from(start.single);
    if let Lent::As(_) = outstation.lent {
        outstation.lent = Lent::As(outstation.class());
    }
}

fn set_up(start: SetUp<'_>, outstation: &mut Outstation) -> u64 {
    keep_start(start, outstation);
    let lent = outstation.lent.lengths();
    station::set_up(
        &mut outstation.row,
        first(&mut outstation.values, lent.values),
        first(&mut outstation.starts, lent.starts),
        first(&mut outstation.marks, lent.marks),
        first(&mut outstation.table, outstation.table_lent),
    )
}

fn happens(what: Happening, offered: &[u8], outstation: &mut Outstation) -> u64 {
    let lent = outstation.lent.lengths();
    station::happens(
        &mut outstation.row,
        what,
        offered,
        first(&mut outstation.values, lent.values),
        first(&mut outstation.starts, lent.starts),
        first(&mut outstation.marks, lent.marks),
        first(&mut outstation.table, outstation.table_lent),
    )
}

fn event(event: Event, outstation: &mut Outstation) -> u64 {
    happens(Happening::Of(event), &[], outstation)
}

// So many bytes of an editor's table are offered.
fn load(n: usize, editor: &Table, outstation: &mut Outstation) -> u64 {
    happens(Happening::Load, parts::part(editor, 0, n), outstation)
}

// ---- a command

// Byte I of the room, as it is lent.
fn poke_table(at: usize, byte: u8, outstation: &mut Outstation) -> Option<u64> {
    let lent = first(&mut outstation.table, outstation.table_lent);
    memory::put(lent, at, byte)?;
    Some(DONE)
}

// What a command answers that changes outstation, store, the table's room or given fields.
pub fn answered(command: MeterCommand<'_>, memory: &mut Memory) -> Option<u64> {
    let outstation = &mut memory.outstation;
    match command {
        MeterCommand::SetUp(start) => Some(set_up(start, outstation)),
        MeterCommand::Happen(what) => Some(event(what, outstation)),
        MeterCommand::Load(n) => Some(load(n, &memory.editor, outstation)),
        MeterCommand::Single => Some(happens(Happening::Single, &[], outstation)),
        MeterCommand::LendAgain => Some(lend_again(outstation)),
        MeterCommand::Lend(lengths) => Some(lend(lengths, outstation)),
        MeterCommand::LendTable(n) => Some(lend_table(n, outstation)),
        MeterCommand::Poke(change) => {
            outstation.change(change)?;
            Some(DONE)
        }
        MeterCommand::PokeTable { at, byte } => poke_table(at, byte, outstation),
        MeterCommand::Give(change) => {
            memory.given.change(change)?;
            Some(DONE)
        }
    }
}
