// Blocks out of the recorder and its store, or out of the given fields.
use crate::keep_length;
use memory::Memory;

pub fn read(days: u32, room: usize, memory: &mut Memory) -> u64 {
    let outstation = &memory.outstation;
    let block = &mut memory.blocks.current;
    let lent = outstation.lent.lengths();
    let answer = station::read(
        &outstation.row,
        days,
        parts::part(&outstation.values, 0, lent.values),
        parts::part(&outstation.starts, 0, lent.starts),
        parts::part(&outstation.marks, 0, lent.marks),
        block.room(room),
    );
    keep_length(answer, block)
}

// As much of the given days as there are to write.
pub fn write(room: usize, memory: &mut Memory) -> u64 {
    let given = &memory.given;
    let block = &mut memory.blocks.current;
    let days = (given.header[desk::HEAD_DAYS] % 4294967296) as u32;
    let n = (days as usize).min(memory::GIVEN_DAYS);
    let answer = station::write(
        &given.header,
        days,
        parts::part(&given.values, 0, block::HALVES * n),
        parts::part(&given.starts, 0, n),
        parts::part(&given.marks, 0, marks::DAY_WORDS * n),
        block.room(room),
    );
    keep_length(answer, block)
}
