// Prints a week of the switching table on standard input, which stands behind the first day, YYMMDD, and a newline. The buffer is one byte longer than a day and a table.
#![tactic(auto)]

// Input is read by the crate `io`: std reads into memory that is lent and may stay partly empty only a part at a time. Output is written by it too: std's would rest on
// the C library's error number besides its read and write.
const STANDARD_INPUT: i32 = 0;

const STANDARD_OUTPUT: i32 = 1;

const ROOM: usize = drawn::ASKED + tariff::TABLE + 1;

const TEXT: usize = drawn::LONGEST_WEEK;

fn main() {
    let mut input = [0u8; ROOM];
    let mut text = [0u8; TEXT];
    let n = io::read_full(STANDARD_INPUT, &mut input);
    let k = drawn::drawn(&input[..n], &mut text);
    // Where it can't be written, there is nobody to tell.
    io::write_all(STANDARD_OUTPUT, &text[..k]);
}
