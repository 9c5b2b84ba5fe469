ghost use Rattle.std.specs.Prelude.{◌≡◌, ◌≤◌, [], ◌∷◌, ◌++◌, codes, drop, length, take};
ghost use Rattle.std.specs.Str.{bytes_eq};
ghost use Rattle.conc_journal_image.specs.Headers.{BeginsJournal, header_behind, IsJudged, label_for};
ghost use Rattle.conc_journal_image.specs.Image as image_spec;
ghost use Rattle.conc_journal_image.specs.Image.{base_in, digest_in, has_header, is_closed, is_not_begun, label_in};

use crate::label::{Label, Version, base_of};
use conc_types::Digests;

// What a journal says of itself behind its gate.
const TITLE: &[u8; 15] = b"conc journal 1\n";

/// What begins an image.
#[derive(Clone, Copy, Debug, PartialEq, Eq)]
pub enum Header {
    /// No journal was begun.
    NotBegun,
    /// The header of a journal, which says this of its input.
    Begun { label: Label },
    /// Anything else.
    Foreign,
}

// The gate that begins these bytes is closed.
pub(crate) fn is_closed(bytes: &[u8]) -> bool
    ensures { result ≡ is_closed bytes.now }
{
    match bytes {
        [gate, ..] => *gate == 0,
        [] => true,
    }
}

#[tactic(auto, unfolding(crate::specs::Image::is_not_begun))]
fn is_not_begun(image: &[u8]) -> bool
    ensures { result ≡ is_not_begun image.now }
{
    image.len() <= 1 || is_closed(image)
}

// The title is that of a journal.
fn is_titled(image: &[u8]) -> bool
    requires { 65 ≤ length image.now }
    ensures { result ≡ bytes_eq (take 15 (drop 1 image.now)) (codes "conc journal 1\n") }
{
    &image[1..16] == TITLE.as_slice()
}

#[tactic(auto, unfolding(crate::specs::Image::has_header))]
fn has_header(image: &[u8]) -> bool
    ensures { result ≡ has_header image.now }
{
    if image.len() < 65 || is_closed(image) {
        return false;
    }
    is_titled(image)
}

fn digest_in(image: &[u8]) -> [u8; 32]
    requires { 65 ≤ length image.now }
    ensures { result ≡ digest_in image.now }
{
    match image[16..].split_first_chunk() {
        Some((digest, _)) => *digest,
        None => unreachable!(),
    }
}

fn base_in(image: &[u8]) -> [u8; 15]
    requires { 65 ≤ length image.now }
    ensures { result ≡ base_in image.now }
{
    match image[48..].split_first_chunk() {
        Some((base, _)) => *base,
        None => unreachable!(),
    }
}

fn version_in(image: &[u8]) -> Version
    requires { 65 ≤ length image.now }
    ensures { result ≡ image_spec.version_in image.now }
{
    if image[63] == 0 {
        Version::One
    } else {
        Version::Two
    }
}

fn label_in(image: &[u8]) -> Label
    requires { 65 ≤ length image.now }
    ensures { result ≡ label_in image.now }
{
    Label {
        version: version_in(image),
        digest: digest_in(image),
        base: base_in(image),
    }
}

/// How an image begins: its first 65 bytes tell.
#[tactic(auto, unfolding(crate::specs::Image::has_header))]
pub fn judge_header(image: &[u8]) -> Header
    ensures { IsJudged image.now result }
{
    if is_not_begun(image) {
        Header::NotBegun
    } else if has_header(image) {
        Header::Begun {
            label: label_in(image),
        }
    } else {
        Header::Foreign
    }
}

// Both digests, one behind the other.
fn joined(digest: &[u8; 32], base: &[u8; 15]) -> [u8; 47]
    ensures bytes { result ≡ digest.now ++ base.now }
    ensures long { length digest.now ≡ 32 }
    ensures short { length base.now ≡ 15 }
{
    let mut bytes = [0; 47];
    bytes[..32].copy_from_slice(digest);
    bytes[32..].copy_from_slice(base);
    bytes
}

// The title, the two digests, a 1 and a 0.
fn header_bytes(digests: &[u8; 47]) -> [u8; 64]
    ensures { result ≡ codes "conc journal 1\n" ++ (digests.now ++ 1 ∷ 0 ∷ []) }
{
    let mut bytes = [0; 64];
    bytes[62] = 1;
    bytes[..15].copy_from_slice(TITLE);
    bytes[15..62].copy_from_slice(digests);
    bytes
}

/// The bytes 1 to 64 of a journal's file: the header behind its gate, of version 2 with these digests,
/// and the closed gate of the first record.
pub fn header_of(digests: &Digests) -> [u8; 64]
    ensures bytes { result ≡ header_behind digests.now.full (take 15 digests.now.base) }
    ensures begins { BeginsJournal (label_for digests.now) result }
{
    let base = base_of(&digests.base);
    header_bytes(&joined(&digests.full, &base))
}
