ghost use Rattle.std.specs.Prelude.{◌≡◌, ◌∷◌, IfNone, IfSome, Some, slice_get};
ghost use Rattle.conc_history_lines.specs.History.{whole_lines};

use conc_history_lines::split_line;

/// The text behind its first line, where this is that line.
pub(crate) fn after_line<'a>(text: &'a [u8], line: &[u8]) -> Option<&'a [u8]>
    ensures same { IfSome result (λ after. whole_lines text.now ≡ line.now
        ∷ whole_lines after.now) }
    ensures other { IfNone result (slice_get (whole_lines text.now) 0 ≡ Some line.now → ⊥) }
{
    match split_line(text) {
        Some((first, after)) if first == line => Some(after),
        _ => None,
    }
}
