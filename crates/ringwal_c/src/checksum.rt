// The checksum.
ghost use Rattle.std.specs.Prelude.{◌≡◌};
ghost use Rattle.crc32.specs.Crc.{crc32_of};

#[unsafe(no_mangle)]
pub extern "C" fn ringwal_crc32(bytes: &[u8]) -> u32
    ensures { result ≡ crc32_of bytes.now }
{
    crc32::crc32(bytes)
}
