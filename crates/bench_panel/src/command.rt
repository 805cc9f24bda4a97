// A line by value: which one it is, and its operands. No buffer of the log is in sight here.
use crate::hex;
use crate::panel::Lent;
use std::str;
use std::str::FromStr;

// A line's name and its operands.
const WORDS: usize = 8;

#[derive(Clone, Copy)]
pub(crate) struct Entry<'a> {
    pub(crate) lsn: u64,
    pub(crate) kind: u64,
    pub(crate) tx_id: u64,
    pub(crate) timestamp: u64,
    pub(crate) key: &'a [u8],
    pub(crate) old_value: &'a [u8],
    pub(crate) new_value: &'a [u8],
}

// A line that makes a call, on the lent parts of the buffers, or tells of those. The operands stand in the line's order.
#[derive(Clone, Copy)]
pub(crate) enum Call<'a> {
    Open,
    Rotate,
    Raw(u64, &'a [u8]),
    Entry(Entry<'a>),
    Truncate(u64),
    Recover,
    Replay,
    Checkpoint(&'a [u8], usize),
    Lists,
}

#[derive(Clone, Copy)]
pub(crate) enum Command<'a> {
    // They need no buffer.
    Bound(u64),
    Lend(Lent),
    Used(usize),
    State,
    Name(u64, usize),
    Reading(&'a [u8]),
    // They work on the whole area and directory.
    Area(usize, &'a [u8]),
    Directory(usize, &'a [u8]),
    Cut(usize, u64),
    Segments,
    Image(usize),
    Call(Call<'a>),
}

// One or more decimal digits, in the number's range. (A sign, which `parse` takes, is no digit.)
fn number<N: FromStr>(word: &[u8]) -> Option<N>
where
    N::Err: Drop,
{
    if !word.iter().all(|byte| byte.is_ascii_digit()) {
        return None;
    }
    str::from_utf8(word).ok()?.parse().ok()
}

// `lend A D E T K`
fn lent_of(operands: &[&[u8]]) -> Option<Lent> {
    let [area, directory, entries, transactions, table] = operands else {
        return None;
    };
    Lent::of([
        number(area)?,
        number(directory)?,
        number(entries)?,
        number(transactions)?,
        number(table)?,
    ])
}

// `entry LSN KIND TX TIME KEY OLD NEW`
fn entry_of<'a>(operands: &[&[u8]], room: &mut &'a mut [u8]) -> Option<Entry<'a>> {
    let [lsn, kind, tx_id, timestamp, key, old_value, new_value] = operands else {
        return None;
    };
    Some(Entry {
        lsn: number(lsn)?,
        kind: number(kind)?,
        tx_id: number(tx_id)?,
        timestamp: number(timestamp)?,
        key: hex::read(key, room)?,
        old_value: hex::read(old_value, room)?,
        new_value: hex::read(new_value, room)?,
    })
}

fn call_of<'a>(words: &[&[u8]], room: &mut &'a mut [u8]) -> Option<Call<'a>> {
    Some(match words {
        [b"open"] => Call::Open,
        [b"rotate"] => Call::Rotate,
        [b"raw", lsn, bytes] => Call::Raw(number(lsn)?, hex::read(bytes, room)?),
        [b"entry", operands @ ..] => Call::Entry(entry_of(operands, room)?),
        [b"truncate", checkpoint] => Call::Truncate(number(checkpoint)?),
        [b"recover"] => Call::Recover,
        [b"replay"] => Call::Replay,
        [b"checkpoint", stored, len] => Call::Checkpoint(hex::read(stored, room)?, number(len)?),
        [b"lists"] => Call::Lists,
        _ => return None,
    })
}

fn command_of<'a>(words: &[&[u8]], room: &mut &'a mut [u8]) -> Option<Command<'a>> {
    Some(match words {
        [b"bound", bound] => Command::Bound(number(bound)?),
        [b"lend", operands @ ..] => Command::Lend(lent_of(operands)?),
        [b"used", used] => Command::Used(number(used)?),
        [b"state"] => Command::State,
        [b"name", id, len] => Command::Name(number(id)?, number(len)?),
        [b"reading", name] => Command::Reading(hex::read(name, room)?),
        [b"area", at, bytes] => Command::Area(number(at)?, hex::read(bytes, room)?),
        [b"directory", at, bytes] => Command::Directory(number(at)?, hex::read(bytes, room)?),
        [b"cut", k, length] => Command::Cut(number(k)?, number(length)?),
        [b"segments"] => Command::Segments,
        [b"image", k] => Command::Image(number(k)?),
        _ => Command::Call(call_of(words, room)?),
    })
}

// The line's command, if it is one. The bytes of its operands are put into the room, one operand behind the other.
pub(crate) fn read<'a>(text: &[u8], mut room: &'a mut [u8]) -> Option<Command<'a>> {
    let none: &[u8] = &[];
    let mut words = [none; WORDS];
    let mut count = 0;
    for word in text.split(|byte| *byte == b' ') {
        if count == WORDS {
            return None;
        }
        words[count] = word;
        count += 1;
    }
    command_of(&words[..count], &mut room)
}
