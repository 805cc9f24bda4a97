// CRC-32 of ITU-T V.42, a byte at a time by a table.
#![tactic(auto)]

mod tables;

ghost use Rattle.std.specs.Prelude.{◌≡◌};
ghost use Rattle.crc32.specs.Crc.{bit_steps, register, crc32_of};

// The register after one byte, which is xored in already: what stands above the low byte only moves.
fn one(x: u32) -> u32
    ensures { result ≡ bit_steps 8 x }
{
    tables::after8(x) ^ (x / 0x100)
}

// The register after the bytes of data, from the register at their start: bytes that lie in several slices are taken in
// turn, each slice from the register that the one before it left.
pub fn update(start: u32, data: &[u8]) -> u32
    ensures { result ≡ register start «data».now }
{
    let mut crc = start;
    for &byte in data {
        crc = one(crc ^ u32::from(byte));
    }
    crc
}

#[tactic(auto, unfolding(crate::specs::Crc::crc32_of))]
pub fn crc32(data: &[u8]) -> u32
    ensures { result ≡ crc32_of «data».now }
{
    update(0xffff_ffff, data) ^ 0xffff_ffff
}
