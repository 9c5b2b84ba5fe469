ghost use Rattle.std.specs.Prelude.{◌≡◌, take};

use conc_types::Digests;

/// Which form a journal has.
#[derive(Clone, Copy, Debug, PartialEq, Eq)]
pub enum Version {
    /// The digest of all files tells whose input it is.
    One,
    /// The digest of all files but the script tells it, and the stamp in the record of each command.
    Two,
}

/// What the header of a journal says of its input.
#[derive(Clone, Copy, Debug, PartialEq, Eq)]
pub struct Label {
    pub version: Version,
    /// The digest of all files. It counts in version 1.
    pub digest: [u8; 32],
    /// The first bytes of the digest of all files but the script. They count in version 2.
    pub base: [u8; 15],
}

/// So much of the base digest as a header holds.
pub fn base_of(digest: &[u8; 32]) -> [u8; 15]
    ensures { result ≡ take 15 digest.now }
{
    match digest.split_first_chunk() {
        Some((base, _)) => *base,
        None => unreachable!(),
    }
}

impl Label {
    ghost use Rattle.conc_journal_image.specs.Headers.{label_for, migrated};

    /// The label of a journal that is begun for an input with these digests.
    pub fn of(digests: &Digests) -> Label
        ensures { result ≡ label_for digests.now }
    {
        Label {
            version: Version::Two,
            digest: digests.full,
            base: base_of(&digests.base),
        }
    }

    /// The label of such a journal of version 2, once it has this base digest.
    pub fn migrated(&self, base: [u8; 15]) -> Label
        ensures { result ≡ migrated self.now base }
    {
        Label {
            version: Version::Two,
            digest: self.digest,
            base,
        }
    }
}
