// The blocks that a script keeps, and its ledger, as bytes. What makes or changes one answers one number, as the library for C does; there is no answer where a byte is
// not there, a shelf is not, or a word names no bytes. Every function takes any memory.
#![tactic(auto)]

pub mod book;
mod given;
mod sent;

use commands::BlockCommand;
use memory::{Block, Blocks, Buffer, DONE, Memory};

// The length that a block gets is what a good answer carries; any other leaves it.
fn keep_length(answer: u64, block: &mut Block) -> u64 {
    if answer < desk::ANSWER {
        block.lend(answer as usize);
    }
    answer
}

fn hex(word: &[u8], block: &mut Block) -> Option<u64> {
    let n = script::unhex(word, block.room(memory::LONGEST))?;
    block.lend(n);
    Some(n as u64)
}

fn put_byte<const N: usize>(at: usize, byte: u8, buffer: &mut Buffer<N>) -> Option<u64> {
    memory::put(buffer.bytes_mut(), at, byte)?;
    Some(DONE)
}

fn cut(n: usize, block: &mut Block) -> u64 {
    block.resize(n);
    n as u64
}

// A block becomes another one; its length.
fn copy(from: &Block, to: &mut Block) -> u64 {
    let bytes = from.bytes();
    to.copy(bytes);
    bytes.len() as u64
}

fn keep(k: usize, blocks: &mut Blocks) -> Option<u64> {
    Some(copy(&blocks.current, blocks.kept.get_mut(k)?))
}

fn take(k: usize, blocks: &mut Blocks) -> Option<u64> {
    Some(copy(blocks.kept.get(k)?, &mut blocks.current))
}

// What a command answers that makes a block, changes one, or takes one apart.
pub fn answered(command: BlockCommand<'_>, memory: &mut Memory) -> Option<u64> {
    match command {
        BlockCommand::Read { days, room } => Some(sent::read(days, room, memory)),
        BlockCommand::Write { room } => Some(sent::write(room, memory)),
        BlockCommand::Fields => Some(given::take(memory)),
        BlockCommand::Hex(word) => hex(word, &mut memory.blocks.current),
        BlockCommand::Byte { at, byte } => put_byte(at, byte, &mut memory.blocks.current),
        BlockCommand::Cut(n) => Some(cut(n, &mut memory.blocks.current)),
        BlockCommand::Keep(k) => keep(k, &mut memory.blocks),
        BlockCommand::Take(k) => take(k, &mut memory.blocks),
    }
}
