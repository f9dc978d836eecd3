// Bytes in hexadecimal: two digits a byte, read in capitals or small letters, written in small letters.
ghost use Rattle.std.specs.Prelude.{◌≡◌, ◌+◌, ◌*◌, ◌<◌, ◌≤◌, length};
ghost use Rattle.script.specs.Hex.{is_hex, sixteenth, letter_of, hex_ok, byte_in, unhexing, unhexed, letter_at, hexing, hexed};

#[tactic(auto, unfolding(crate::specs::Hex::is_hex))]
fn is_hex(b: u8) -> bool
    ensures { result ≡ is_hex b }
{
    b.is_ascii_hexdigit()
}

// The number that a digit stands for.
#[tactic(auto, unfolding(crate::specs::Hex::sixteenth))]
fn sixteenth(b: u8) -> u64
    ensures { (result ≡ sixteenth b) × (result < 256) }
{
    let x = u64::from(b);
    if b <= b'9' {
        return x.saturating_sub(48);
    }
    if b <= b'F' {
        return x.saturating_sub(55);
    }
    x.saturating_sub(87)
}

#[tactic(auto, unfolding(crate::specs::Hex::hex_ok))]
fn hex_ok(word: &[u8]) -> bool
    ensures { result ≡ hex_ok word.now }
{
    if word.is_empty() || word.len() % 2 != 0 {
        return false;
    }
    word.iter().all(|b| is_hex(*b))
}

// Byte i of those that a word names.
#[tactic(auto, unfolding(crate::specs::Hex::byte_in))]
fn byte_in(word: &[u8], i: usize) -> u8
    requires { 2 * i + 1 < length word.now }
    ensures { result ≡ byte_in word.now i }
{
    let high = sixteenth(word[2 * i]);
    let low = sixteenth(word[2 * i + 1]);
    ((16 * high + low) % 256) as u8
}

// The bytes that a word names, at the beginning of out, and how many there are; none, and out as it was, where it names none or they don't fit.
pub fn unhex(word: &[u8], out: &mut [u8]) -> Option<usize>
    ensures { unhexing out.new result ≡ unhexed word.now out.old }
{
    if !hex_ok(word) {
        return None;
    }
    let n = word.len() / 2;
    if out.len() < n {
        return None;
    }
    for i in 0..n {
        out[i] = byte_in(word, i);
    }
    Some(n)
}

#[tactic(auto, unfolding(crate::specs::Hex::letter_of))]
fn letter(x: u64) -> u8
    requires { x < 16 }
    ensures { result ≡ letter_of x }
{
    if x < 10 {
        return (48 + x) as u8;
    }
    (87 + x) as u8
}

// Digit q of a row of bytes.
#[tactic(auto, unfolding(crate::specs::Hex::letter_at))]
fn letter_at(bytes: &[u8], q: usize) -> u8
    requires { q < 2 * length bytes.now }
    ensures { result ≡ letter_at bytes.now q }
{
    let b = u64::from(bytes[q / 2]);
    if q % 2 == 0 {
        return letter(b / 16);
    }
    letter(b % 16)
}

// Bytes in hexadecimal at the beginning of out, and how many digits there are; none, and out as it was, where they don't fit.
pub fn hex(bytes: &[u8], out: &mut [u8]) -> usize
    ensures { (hexing out.new result ≡ hexed bytes.now out.old) × (result ≤ length out.old) }
{
    if out.len() / 2 < bytes.len() {
        return 0;
    }
    let n = 2 * bytes.len();
    for q in 0..n {
        out[q] = letter_at(bytes, q);
    }
    n
}
