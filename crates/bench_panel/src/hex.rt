// Bytes as lowercase hex digits, or `-` for none.
ghost use Rattle.std.specs.Prelude.{◌≤◌, length};

use std::io;

// A word has at most so many bytes.
pub(crate) const MOST: usize = 4_096;

// So many bytes are printed at once.
const PART: usize = 2_048;

fn value(digit: u8) -> Option<u8> {
    match digit {
        b'0'..=b'9' => Some(digit - b'0'),
        b'a'..=b'f' => Some(digit - b'a' + 10),
        _ => None,
    }
}

fn byte(digits: &[u8]) -> Option<u8> {
    match digits {
        [high, low] => Some(value(*high)? << 4 | value(*low)?),
        _ => None,
    }
}

// The bytes that a word stands for, if it stands for any. They are taken from the front of the room.
pub(crate) fn read<'a>(word: &[u8], room: &mut &'a mut [u8]) -> Option<&'a [u8]> {
    if word == b"-".as_slice() {
        return Some(&[]);
    }
    let count = word.len().div_ceil(2);
    if count == 0 || MOST < count {
        return None;
    }
    let bytes = room.split_off_mut(..count)?;
    for (to, digits) in bytes.iter_mut().zip(word.chunks(2)) {
        *to = byte(digits)?;
    }
    Some(bytes)
}

// By sums and no table, so that the compiler spells several bytes at once.
fn digit(value: u8) -> u8
    requires { value ≤ 15 }
{
    if value < 10 {
        b'0' + value
    } else {
        b'a' + (value - 10)
    }
}

fn print_part(rt: &impl Print, bytes: &[u8]) -> io::Result<()>
    requires { length bytes.now ≤ 2_048 }
{
    let mut text = [0; 2 * PART];
    for (digits, byte) in text.chunks_exact_mut(2).zip(bytes) {
        digits[0] = digit(*byte >> 4);
        digits[1] = digit(*byte & 0xf);
    }
    rt.write_all(&text[..2 * bytes.len()])
}

pub(crate) fn print(rt: &impl Print, bytes: &[u8]) -> io::Result<()> {
    if bytes.is_empty() {
        return rt.write_all(b"-");
    }
    for part in bytes.chunks(PART) {
        print_part(rt, part)?;
    }
    Ok(())
}
