// The ledger, of which the first bytes are lent.
use crate::put_byte;
use commands::LedgerCommand;
use memory::{DONE, LONGEST_LEDGER, Ledger, Memory};

// The bytes of a ledger of so many days; none where there is no room for it.
fn length_for(days: u32) -> usize {
    let n = desk::cop6_ledger_length(days) as usize;
    if days == 0 || LONGEST_LEDGER < n {
        0
    } else {
        n
    }
}

fn open(identifier: &[u8], first: u32, days: u32, ledger: &mut Ledger) -> u64 {
    ledger.lend(length_for(days));
    let lent = ledger.bytes_mut();
    lent.fill(0);
    desk::cop6_open(lent, identifier, first, days)
}

fn lend(n: usize, ledger: &mut Ledger) -> u64 {
    ledger.resize(n);
    DONE
}

fn file(block: &[u8], ledger: &mut Ledger) -> u64 {
    desk::cop6_file(ledger.bytes_mut(), block)
}

// What a command answers that changes it.
pub fn answered(command: LedgerCommand<'_>, memory: &mut Memory) -> Option<u64> {
    let ledger = &mut memory.ledger;
    let blocks = &memory.blocks;
    match command {
        LedgerCommand::Open {
            identifier,
            first,
            days,
        } => Some(open(identifier, first, days, ledger)),
        LedgerCommand::File => Some(file(blocks.current.bytes(), ledger)),
        LedgerCommand::Deliver(k) => Some(file(blocks.kept.get(k)?.bytes(), ledger)),
        LedgerCommand::Lend(n) => Some(lend(n, ledger)),
        LedgerCommand::Poke { at, byte } => put_byte(at, byte, ledger),
    }
}
