// What each function writes; and what becomes of an output's error: it is handed back, and nothing is written after it, or, by `put_..`, it is passed over.
use super::*;
use std::io::{Error, ErrorKind};
use std::process::Abort;

const ROOM: usize = 2 * PART + 4;

// An output that takes every piece but one, of which it says an error; how many bytes it holds, and how many pieces it was given.
#[derive(Drop)]
struct Output {
    text: [u8; ROOM],
    held: usize,
    pieces: usize,
    refused: Option<usize>,
}

impl Write for Output {
    fn write(&mut self, piece: &[u8]) -> io::Result<usize> {
        let at = self.pieces;
        self.pieces = at.wrapping_add(1);
        if self.refused == Some(at) {
            return Err(Error::from(ErrorKind::BrokenPipe));
        }
        for b in piece {
            if let Some(place) = self.text.get_mut(self.held) {
                *place = *b;
                self.held += 1;
            }
        }
        Ok(piece.len())
    }

    fn flush(&mut self) -> io::Result<()> {
        Ok(())
    }
}

impl Output {
    fn refusing(piece: Option<usize>) -> Output {
        Output {
            text: [0; ROOM],
            held: 0,
            pieces: 0,
            refused: piece,
        }
    }

    fn text(&self) -> &[u8] {
        &self.text[..self.held.min(ROOM)]
    }
}

// A part of bytes, and one byte of the next; and a block of no days, read out at 2024-02-29 00:00:00.
const BYTES: [u8; PART + 1] = [0xab; PART + 1];

const BLOCK: &[u8] =
    b"\0\0\0\x6c\x01ABCX2400001724022900000000000000000000000000000000000000000000000000000000000000000000000000000000000000000";

const WRITTEN: &[u8] = b"7 44\n? 12\n 1 0 9999007fff\n\nREFUSED 8\nABCX24000017 240229000000 000\n";

#[test]
fn all_is_written(rt: HostRuntime) {
    let mut out = Output::refusing(None);
    let said = [
        answer(&mut out, 7 * desk::ANSWER + 44),
        unread(&mut out, 12),
        then_all(&mut out, &[1u16, 0, 9999]),
        hex(&mut out, &[0x00, 0x7f, 0xff]),
        hex(&mut out, b""),
        listing(&mut out, b""),
        listing(&mut out, BLOCK),
    ];
    assert!(rt; said.iter().all(|r| r.is_ok()));
    assert_eq!(rt; out.text(), WRITTEN);
}

#[test]
fn put_writes_the_same(rt: HostRuntime) {
    let mut out = Output::refusing(None);
    put_answer(&mut out, 7 * desk::ANSWER + 44);
    put_unread(&mut out, 12);
    put_all(&mut out, &[1u16, 0, 9999]);
    put_hex(&mut out, &[0x00, 0x7f, 0xff]);
    put_hex(&mut out, b"");
    put_listing(&mut out, b"");
    put_listing(&mut out, BLOCK);
    assert_eq!(rt; out.text(), WRITTEN);
}

// Whichever piece is refused, an error of the output's kind comes back, and no piece is tried after it.
fn hands_back<F: Fn(&mut Output) -> io::Result<()>>(rt: &impl Abort, write: F)
    requires { F.IsAlwaysCallable write }
{
    let mut whole = Output::refusing(None);
    assert!(rt; write(&mut whole).is_ok());
    for k in 0..whole.pieces {
        let mut out = Output::refusing(Some(k));
        let said = write(&mut out);
        assert!(rt; said.is_err_and(|e| e.kind() == ErrorKind::BrokenPipe));
        assert!(rt; out.pieces == k + 1);
        assert!(rt; whole.text().starts_with(out.text()));
    }
}

#[test]
fn an_error_is_handed_back(rt: HostRuntime) {
    hands_back(&rt, |out| answer(out, 7 * desk::ANSWER + 44));
    hands_back(&rt, |out| unread(out, 12));
    hands_back(&rt, |out| then_all(out, &[1u16, 0, 9999]));
    hands_back(&rt, |out| hex(out, &BYTES));
    hands_back(&rt, |out| hex(out, b""));
    hands_back(&rt, |out| listing(out, b""));
    hands_back(&rt, |out| listing(out, BLOCK));
}

#[test]
fn put_goes_on(rt: HostRuntime) {
    let mut out = Output::refusing(Some(0));
    put_all(&mut out, &[1u16, 0, 9999]);
    assert_eq!(rt; out.text(), b" 0 9999".as_slice());
    let mut out = Output::refusing(Some(1));
    put_hex(&mut out, &BYTES);
    assert_eq!(rt; (out.held, out.pieces), (2 * PART + 1, 3));
    assert_eq!(rt; out.text().last(), Some(&b'\n'));
}
