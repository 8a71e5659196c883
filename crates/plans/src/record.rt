// The records of a plan: 16 bytes each.
ghost use Rattle.std.specs.Prelude.{◌≡◌, ◌+◌, ◌*◌, ◌≤◌, length};
ghost use Rattle.plans.specs.Records.{record_at, word};

// The bytes of a record.
pub const RECORD_BYTES: usize = 16;

// A record as it stands, in order or not: the kind, a number, two bytes that must be zero, and three fields.
#[derive(Clone, Copy, Debug)]
pub struct Record {
    pub kind: u8,
    pub number: u8,
    pub zeros: u16,
    pub first: u32,
    pub second: u32,
    pub third: u32,
}

// The number in the four bytes from `at` on, the low byte first.
pub fn word_at(bytes: &[u8], at: usize) -> u32
    requires { at + 4 ≤ length bytes.now }
    ensures answer { result ≡ word bytes.now at }
{
    u32::from_le_bytes(bytes[at..at + 4].try_into().unwrap())
}

impl Record {
    // The record at `place`, counted from 0.
    pub fn at(bytes: &[u8], place: usize) -> Record
        requires { 16 * place + 16 ≤ length bytes.now }
        ensures answer { result ≡ record_at bytes.now place }
    {
        let at = RECORD_BYTES * place;
        Record {
            kind: bytes[at],
            number: bytes[at + 1],
            zeros: u16::from_le_bytes(bytes[at + 2..at + 4].try_into().unwrap()),
            first: word_at(bytes, at + 4),
            second: word_at(bytes, at + 8),
            third: word_at(bytes, at + 12),
        }
    }
}
