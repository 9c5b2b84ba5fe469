// Journals of both versions, byte by byte.
use conc_journal_image::{Label, Version};
use conc_types::{Digests, Event, Moment};

pub(super) const DIGEST: [u8; 32] = *b"abcdefghijklmnopqrstuvwxyz012345";

// So much of the base digest as a header holds, and the two digests.
pub(super) const BASE: [u8; 15] = *b"the base digest";

pub(super) const DIGESTS: Digests = Digests {
    full: DIGEST,
    base: *b"the base digest, and 17 others..",
};

// What the header of a journal of version 2 says with these.
pub(super) const LABEL: Label = Label {
    version: Version::Two,
    digest: DIGEST,
    base: BASE,
};

pub(super) const TICK: Event = Event::Tick {
    moment: Moment {
        seconds: 63_876_589_200,
    },
};

pub(super) const COMMAND: Event = Event::Command { number: 1 };

// The stamps of the first two commands.
pub(super) const STAMPS: [u64; 2] = [0x0102_0304_0506_0708, 0xf1f2_f3f4_f5f6_f7f8];

// The header of version 1, a tick at 2025-03-03T09:00:00 and the first command, but for the gate of the next record.
pub(super) const TWO_IN_ONE: &[u8; 128] = b"\x01conc journal 1\n\
    abcdefghijklmnopqrstuvwxyz012345\
    \0\0\0\0\0\0\0\0\0\0\0\0\0\0\0\0\
    \x01\x01\0\0\0\0\0\0\0\0\0\0\0\0\0\x0e\xdfWf\x90\0\0\0\0\0\0\0\0\0\0\0\0\
    \x01\x02\0\0\0\0\0\x01\0\0\0\0\0\0\0\0\0\0\0\0\0\0\0\0\0\0\0\0\0\0\0\0";

// The same of version 2, whose header has the beginning of the base digest and a 1, and whose command has its stamp.
pub(super) const TWO_IN_TWO: &[u8; 128] = b"\x01conc journal 1\n\
    abcdefghijklmnopqrstuvwxyz012345\
    the base digest\x01\
    \x01\x01\0\0\0\0\0\0\0\0\0\0\0\0\0\x0e\xdfWf\x90\0\0\0\0\0\0\0\0\0\0\0\0\
    \x01\x02\0\0\0\0\0\x01\0\0\0\0\x01\x02\x03\x04\x05\x06\x07\x08\0\0\0\0\0\0\0\0\0\0\0\0";

// The header of version 1, the nine records of `in_turn`, one on a line, and the gate of the next one: 353 bytes.
pub(super) const NINE_IN_ONE: &[u8; 353] = b"\x01conc journal 1\n\
    abcdefghijklmnopqrstuvwxyz012345\
    \0\0\0\0\0\0\0\0\0\0\0\0\0\0\0\0\
    \x01\x01\0\0\0\0\0\0\0\0\0\0\0\0\0\x0e\xdfWf\x90\0\0\0\0\0\0\0\0\0\0\0\0\
    \x01\x02\0\0\0\0\0\x01\0\0\0\0\0\0\0\0\0\0\0\0\0\0\0\0\0\0\0\0\0\0\0\0\
    \x01\x02\0\0\0\0\0\x02\0\0\0\0\0\0\0\0\0\0\0\0\0\0\0\0\0\0\0\0\0\0\0\0\
    \x01\x06\0\0\0\0\0\x01\0\0\0\0\0\0\0\0\0\0\0\0\0\0\0\0\0\0\0\0\0\0\0\0\
    \x01\x07\0\0\0\0\0\x01\0\0\0\0\0\0\0\0\0\0\0\0\0\0\0\0\0\0\0\0\0\0\0\0\
    \x01\x08\x01\0\0\0\0\x01\0\0\0\0\0\0\0\0\0\0\0\0\0\0\0\x27\0\0\0\0\0\0\0\0\
    \x01\x06\0\0\0\0\0\x02\0\0\0\0\0\0\0\0\0\0\0\0\0\0\0\0\0\0\0\0\0\0\0\0\
    \x01\x07\0\0\0\0\0\x02\0\0\0\0\0\0\0\0\0\0\0\0\0\0\0\0\0\0\0\0\0\0\0\0\
    \x01\x08\x01\0\0\0\0\x02\0\0\0\0\0\0\0\0\0\0\0\x27\0\0\0\x27\0\0\0\0\0\0\0\0\
    \0";

// The same of version 2, with the stamps of both commands.
pub(super) const NINE_IN_TWO: &[u8; 353] = b"\x01conc journal 1\n\
    abcdefghijklmnopqrstuvwxyz012345\
    the base digest\x01\
    \x01\x01\0\0\0\0\0\0\0\0\0\0\0\0\0\x0e\xdfWf\x90\0\0\0\0\0\0\0\0\0\0\0\0\
    \x01\x02\0\0\0\0\0\x01\0\0\0\0\x01\x02\x03\x04\x05\x06\x07\x08\0\0\0\0\0\0\0\0\0\0\0\0\
    \x01\x02\0\0\0\0\0\x02\0\0\0\0\xf1\xf2\xf3\xf4\xf5\xf6\xf7\xf8\0\0\0\0\0\0\0\0\0\0\0\0\
    \x01\x06\0\0\0\0\0\x01\0\0\0\0\0\0\0\0\0\0\0\0\0\0\0\0\0\0\0\0\0\0\0\0\
    \x01\x07\0\0\0\0\0\x01\0\0\0\0\0\0\0\0\0\0\0\0\0\0\0\0\0\0\0\0\0\0\0\0\
    \x01\x08\x01\0\0\0\0\x01\0\0\0\0\0\0\0\0\0\0\0\0\0\0\0\x27\0\0\0\0\0\0\0\0\
    \x01\x06\0\0\0\0\0\x02\0\0\0\0\0\0\0\0\0\0\0\0\0\0\0\0\0\0\0\0\0\0\0\0\
    \x01\x07\0\0\0\0\0\x02\0\0\0\0\0\0\0\0\0\0\0\0\0\0\0\0\0\0\0\0\0\0\0\0\
    \x01\x08\x01\0\0\0\0\x02\0\0\0\0\0\0\0\0\0\0\0\x27\0\0\0\x27\0\0\0\0\0\0\0\0\
    \0";
