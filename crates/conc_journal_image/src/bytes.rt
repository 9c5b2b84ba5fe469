ghost use Rattle.std.specs.Prelude.{◌≡◌};
ghost use Rattle.conc_journal_image.specs.Fields.{are_zero};

// Each of these bytes is 0.
pub(crate) fn are_zero(bytes: &[u8]) -> bool
    ensures { result ≡ are_zero bytes.now }
{
    bytes.iter().all(|byte| *byte == 0)
}
