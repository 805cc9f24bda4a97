// What document 01 says of a checkpoint's bytes, over its log of number 1 and its commit.
use super::readings::LOG;
use super::tally::Tally;
use super::writing::number_of;
use directory::record::SegmentRecord;
use refusal::Refusal;

fn checkpoint(stored: &[u8], target: &mut [u8]) -> Result<u64, Refusal> {
    let mut directory = [0u8; 24];
    let segment = SegmentRecord {
        id: 1,
        start: 0,
        length: 84,
    };
    directory::record::put_record(&mut directory, 0, segment);
    let mut entries = [0u8; 64];
    let mut transactions = [0u8; 24];
    recovery::checkpoint(
        &LOG,
        &directory,
        1,
        &mut entries,
        &mut transactions,
        stored,
        target,
    )
}

// "writes its 8 bytes at the target's start, the rest unchanged"; "a target for .. a checkpoint is too short for it"
fn targets(t: Tally) -> Tally {
    let mut short = [0x2au8; 7];
    let mut long = [0x2au8; 10];
    let refused = checkpoint(b"", &mut short);
    let written = checkpoint(b"", &mut long);
    t.with(number_of(refused) == 1)
        .with(&short == b"*******")
        .with(written == Ok(1))
        .with(&long == b"\x01\x00\x00\x00\x00\x00\x00\x00**")
}

// "A checkpoint image not exactly 8 bytes reads as 0."
fn images(t: Tally) -> Tally {
    t.with(recovery::read_checkpoint(b"") == 0)
        .with(recovery::read_checkpoint(b"1234567") == 0)
        .with(recovery::read_checkpoint(b"12345678") == 0x3837_3635_3433_3231)
        .with(recovery::read_checkpoint(b"123456789") == 0)
}

// The stored image of number 1, whole and with a byte more.
fn stored(t: Tally) -> Tally {
    let mut target = [0u8; 8];
    let whole = checkpoint(b"\x01\x00\x00\x00\x00\x00\x00\x00", &mut target);
    let longer = checkpoint(b"\x01\x00\x00\x00\x00\x00\x00\x00\x00", &mut target);
    t.with(number_of(whole) == 10).with(longer == Ok(1))
}

pub(crate) fn all(t: Tally) -> Tally {
    stored(images(targets(t)))
}
