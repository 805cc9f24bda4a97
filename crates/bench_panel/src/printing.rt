// What several lines print.
use crate::fault::Fault;
use crate::hex;
use std::io;

// What a name or a checkpoint is written into: each byte is 2a (hex) before the call.
pub(crate) const TARGET: [u8; 64] = [0x2a; 64];

pub(crate) fn print_ok(rt: &impl Print) -> Result<(), Fault> {
    console::print_line(rt, b"ok", &[])?;
    Ok(())
}

pub(crate) fn print_size(rt: &impl Print, name: &[u8], size: usize) -> Result<(), Fault> {
    console::print_line(rt, name, &[size as u64])?;
    Ok(())
}

// A word and bytes.
pub(crate) fn print_bytes(rt: &impl Print, name: &[u8], bytes: &[u8]) -> io::Result<()> {
    rt.write_all(name)?;
    rt.write_all(b" ")?;
    hex::print(rt, bytes)?;
    rt.write_all(b"\n")
}

// A word, a number and a target's bytes.
pub(crate) fn print_written(
    rt: &impl Print,
    word: &[u8],
    number: u64,
    target: &[u8],
) -> Result<(), Fault> {
    rt.write_all(word)?;
    print!(rt; " {number}")?;
    print_bytes(rt, b"", target)?;
    Ok(())
}
