// Whether bytes are UTF-8, by the grammar of RFC 3629, section 4.
#![tactic(auto)]

ghost use Rattle.std.specs.Prelude.{◌≡◌};
ghost use Rattle.std.specs.Option.{option_copied};
ghost use Rattle.utf8.specs.Grammar.{utf8_char, begun, after, is_utf8};
ghost use Rattle.utf8.specs.State.{ranges_of, next_of};
ghost use Rattle.utf8.specs.Ascii.{ascii, behind_ascii};

// What is to come of the character that was begun: left octets, the first from low to high, the others tails.
#[derive(Clone, Copy)]
struct Awaited {
    left: usize,
    low: u8,
    high: u8,
}

fn awaits(left: usize, low: u8, high: u8) -> Option<Awaited>
    ensures { result ≡ Some (record { left = left; low = low; high = high }) }
{
    Some(Awaited { left, low, high })
}

// What an octet leaves, if it may stand there. A character's first octet says how many follow, and the range of the second.
fn begin(b: u8) -> Option<Awaited>
    ensures { next_of result ≡ begun b utf8_char }
{
    match b {
        0x00..=0x7F => awaits(0, 0x80, 0xBF),
        0xC2..=0xDF => awaits(1, 0x80, 0xBF),
        0xE0 => awaits(2, 0xA0, 0xBF),
        0xE1..=0xEC => awaits(2, 0x80, 0xBF),
        0xED => awaits(2, 0x80, 0x9F),
        0xEE..=0xEF => awaits(2, 0x80, 0xBF),
        0xF0 => awaits(3, 0x90, 0xBF),
        0xF1..=0xF3 => awaits(3, 0x80, 0xBF),
        0xF4 => awaits(3, 0x80, 0x8F),
        _ => None,
    }
}

// The octet begins a character where none was begun; else it must be the awaited one.
fn step(s: Awaited, b: u8) -> Option<Awaited>
    ensures { next_of result ≡ after b (ranges_of s) }
{
    if s.left == 0 {
        return begin(b);
    }
    if b < s.low || s.high < b {
        return None;
    }
    awaits(s.left - 1, 0x80, 0xBF)
}

// An OR is below 0x80 exactly if every octet of it is, so one test serves for eight.
fn ascii_eight(s: &[u8; 8]) -> bool
    ensures { result ≡ ascii s.now }
{
    let a = s[0] | s[1] | s[2] | s[3];
    let b = s[4] | s[5] | s[6] | s[7];
    (a | b) < 0x80
}

// What stands behind the first eight octets, if these are all UTF8-1.
fn behind_ascii(bytes: &[u8]) -> Option<&[u8]>
    ensures { option_copied result ≡ behind_ascii bytes.now }
{
    let (eight, rest) = bytes.split_first_chunk::<8>()?;
    if ascii_eight(eight) { Some(rest) } else { None }
}

pub fn is_utf8(bytes: &[u8]) -> bool
    ensures { result ≡ is_utf8 bytes.now }
{
    let mut s = Awaited {
        left: 0,
        low: 0x80,
        high: 0xBF,
    };
    let mut rest = bytes;
    while let Some((&b, tail)) = rest.split_first() {
        // Most octets are UTF8-1, and pass eight at a time.
        if s.left == 0 {
            if let Some(behind) = behind_ascii(rest) {
                rest = behind;
                continue;
            }
        }
        let Some(next) = step(s, b) else {
            return false;
        };
        s = next;
        rest = tail;
    }
    s.left == 0
}
