ghost use Rattle.std.specs.Prelude.{◌≡◌, ◌+◌, ◌≤◌, ◌&&◌, Some, drop, take};
ghost use Rattle.std.specs.Int.{from_be_bytes, w32, w64};
ghost use Rattle.conc_journal_image.specs.Fields.{are_zero, fields_of, has_a_wide_number, has_first_alone, has_first_and_outcome, has_first_and_wide, has_two_numbers, stamp_in, wide_at, word_at};

use crate::bytes::are_zero;

// A record behind its gate, by its fields.
#[derive(Clone, Copy)]
pub(crate) struct Fields {
    pub(crate) kind: u8,
    pub(crate) outcome: u8,
    pub(crate) first: u32,
    pub(crate) second: u32,
    pub(crate) wide: u64,
    pub(crate) length: u32,
}

// The number of the four bytes from here on.
fn word_at(bytes: &[u8; 31], at: usize) -> u32
    requires { at + 4 ≤ 31 }
    ensures { result ≡ word_at at bytes.now }
{
    match bytes[at..].split_first_chunk() {
        Some((word, _)) => u32::from_be_bytes(*word),
        None => unreachable!(),
    }
}

// The number of the eight bytes from here on.
fn wide_at(bytes: &[u8; 31], at: usize) -> u64
    requires { at + 8 ≤ 31 }
    ensures { result ≡ wide_at at bytes.now }
{
    match bytes[at..].split_first_chunk() {
        Some((wide, _)) => u64::from_be_bytes(*wide),
        None => unreachable!(),
    }
}

// The number that these bytes have where a command has its stamp.
pub(crate) fn stamp_in(bytes: &[u8; 31]) -> u64
    ensures { result ≡ stamp_in bytes.now }
{
    wide_at(bytes, 11)
}

// The four bytes of a number.
fn word_bytes(number: u32) -> [u8; 4]
    ensures { from_be_bytes w32 result ≡ number }
{
    number.to_be_bytes()
}

// The eight bytes of a number.
fn wide_bytes(number: u64) -> [u8; 8]
    ensures { from_be_bytes w64 result ≡ number }
{
    number.to_be_bytes()
}

// The bytes that belong to no field are 0.
fn others_are_zero(bytes: &[u8; 31]) -> bool
    ensures { result ≡ (are_zero (take 1 (drop 2 bytes.now)) && are_zero (drop 23 bytes.now)) }
{
    are_zero(&bytes[2..3]) && are_zero(&bytes[23..])
}

impl Fields {
    // The fields of these bytes, where the bytes of no field are 0.
    #[tactic(auto, unfolding(crate::specs::Fields::fields_of))]
    pub(crate) fn of(bytes: &[u8; 31]) -> Option<Fields>
        ensures { result ≡ fields_of bytes.now }
    {
        others_are_zero(bytes).then_some(Fields {
            kind: bytes[0],
            outcome: bytes[1],
            first: word_at(bytes, 3),
            second: word_at(bytes, 7),
            wide: wide_at(bytes, 11),
            length: word_at(bytes, 19),
        })
    }

    // But for the first number all is 0.
    pub(crate) fn has_first_alone(&self) -> bool
        ensures { result ≡ has_first_alone self.now }
    {
        self.outcome == 0 && self.second == 0 && self.wide == 0 && self.length == 0
    }

    // But for the first number and the wide one all is 0.
    pub(crate) fn has_first_and_wide(&self) -> bool
        ensures { result ≡ has_first_and_wide self.now }
    {
        self.outcome == 0 && self.second == 0 && self.length == 0
    }

    // But for the two numbers all is 0.
    pub(crate) fn has_two_numbers(&self) -> bool
        ensures { result ≡ has_two_numbers self.now }
    {
        self.outcome == 0 && self.wide == 0 && self.length == 0
    }

    // But for the wide number all is 0.
    pub(crate) fn has_a_wide_number(&self) -> bool
        ensures { result ≡ has_a_wide_number self.now }
    {
        self.outcome == 0 && self.first == 0 && self.second == 0 && self.length == 0
    }

    // But for the outcome and the first number all is 0.
    pub(crate) fn has_first_and_outcome(&self) -> bool
        ensures { result ≡ has_first_and_outcome self.now }
    {
        self.second == 0 && self.wide == 0 && self.length == 0
    }

    // The 31 bytes of these fields.
    pub(crate) fn bytes(self) -> [u8; 31]
        ensures fields { fields_of result ≡ Some self }
        ensures stamp { stamp_in result ≡ self.wide }
    {
        let first = word_bytes(self.first);
        let second = word_bytes(self.second);
        let wide = wide_bytes(self.wide);
        let length = word_bytes(self.length);
        [
            self.kind,
            self.outcome,
            0,
            first[0],
            first[1],
            first[2],
            first[3],
            second[0],
            second[1],
            second[2],
            second[3],
            wide[0],
            wide[1],
            wide[2],
            wide[3],
            wide[4],
            wide[5],
            wide[6],
            wide[7],
            length[0],
            length[1],
            length[2],
            length[3],
            0,
            0,
            0,
            0,
            0,
            0,
            0,
            0,
        ]
    }
}
