// "A header is 13 bytes: payload length (8), CRC-32 of the payload (4), version 1."
#![tactic(auto)]

ghost use Rattle.std.specs.Prelude.{◌≡◌};
ghost use Rattle.header.specs.Header.{header_of, header_bytes, header_at, valid_for};

#[derive(Clone, Copy, Debug, PartialEq, Eq)]
pub struct WalEntryHeader {
    // Of the payload, without the header.
    pub length: u64,
    pub checksum: u32,
    // Written and never tested on reading.
    pub version: u8,
}

impl WalEntryHeader {
    pub const VERSION: u8 = 1;

    pub const SIZE: usize = 13;

    #[tactic(auto, unfolding(crate::specs::Header::header_of))]
    pub fn new(data: &[u8]) -> Self
        ensures { result ≡ header_of «data».now }
    {
        WalEntryHeader {
            length: data.len() as u64,
            checksum: crc32::crc32(data),
            version: WalEntryHeader::VERSION,
        }
    }

    pub fn to_bytes(self) -> [u8; WalEntryHeader::SIZE]
        ensures { result ≡ header_bytes self }
    {
        let mut bytes = [0u8; WalEntryHeader::SIZE];
        fields::put_u64(&mut bytes, 0, self.length);
        fields::put_le(&mut bytes, 8, 4, u64::from(self.checksum));
        fields::put_le(&mut bytes, 12, 1, u64::from(self.version));
        bytes
    }

    // The header at the front of the bytes. Fields that are not there read as 0.
    pub fn read(bytes: &[u8]) -> Self
        ensures { result ≡ header_at bytes.now }
    {
        WalEntryHeader {
            length: fields::get_u64(bytes, 0),
            checksum: fields::get_le(bytes, 8, 4) as u32,
            version: fields::get_le(bytes, 12, 1) as u8,
        }
    }

    pub fn from_bytes(bytes: &[u8; WalEntryHeader::SIZE]) -> Self
        ensures { result ≡ header_at bytes.now }
    {
        WalEntryHeader::read(bytes)
    }

    #[tactic(auto, unfolding(crate::specs::Header::valid_for))]
    pub fn validate(self, data: &[u8]) -> bool
        ensures { result ≡ valid_for self «data».now }
    {
        crc32::crc32(data) == self.checksum
    }
}
