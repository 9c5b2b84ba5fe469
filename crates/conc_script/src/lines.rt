ghost use Rattle.std.specs.Prelude.{◌≡◌, ◌==◌, ◌<◌, [], ◌∷◌, length, position, IfSome, MatchOption};
ghost use Rattle.conc_script.specs.Clock.{lines_of};
ghost use Rattle.conc_script.specs.Lines as spec;

fn line_feed(bytes: &[u8]) -> Option<usize>
    ensures { result ≡ position (λ byte. byte == 10) bytes.now }
{
    bytes.iter().position(|byte| *byte == b'\n')
}

fn without_return(line: &[u8]) -> &[u8]
    ensures { result.now ≡ spec.without_return line.now }
{
    line.strip_suffix(b"\r").unwrap_or(line)
}

/// The first line of a text, without its end, and the text behind it. A text without a byte has no
/// line.
pub(crate) fn split_line(bytes: &[u8]) -> Option<(&[u8], &[u8])>
    ensures lines { MatchOption result (lines_of bytes.now ≡ [])
        (λ p. lines_of bytes.now ≡ p.0.now ∷ lines_of p.1.now) }
    ensures shorter { IfSome result (λ p. length p.1.now < length bytes.now) }
{
    if bytes.is_empty() {
        return None;
    }
    match line_feed(bytes) {
        None => Some((bytes, &[])),
        Some(end) => {
            let (line, rest) = bytes.split_at(end);
            Some((without_return(line), &rest[1..]))
        }
    }
}
