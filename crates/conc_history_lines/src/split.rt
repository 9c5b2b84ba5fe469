ghost use Rattle.std.specs.Prelude.{◌≡◌, ◌==◌, ◌++◌, ◌∷◌, All, false, position, IfNone, IfSome};

fn find(bytes: &[u8], byte: u8) -> Option<usize>
    ensures { result ≡ position (λ other. other == byte) bytes.now }
{
    bytes.iter().position(|other| *other == byte)
}

/// What stands before the first of these bytes, and what stands behind it. None where no such byte
/// stands.
pub fn split_once(bytes: &[u8], byte: u8) -> Option<(&[u8], &[u8])>
    ensures lacks { IfNone result (All (λ other. (other == byte) ≡ false) bytes.now) }
    ensures parts { IfSome result (λ p. bytes.now ≡ p.0.now ++ byte ∷ p.1.now) }
    ensures first { IfSome result (λ p. All (λ other. (other == byte) ≡ false) p.0.now) }
{
    let place = find(bytes, byte)?;
    let (before, rest) = bytes.split_at(place);
    Some((before, &rest[1..]))
}
