//! The lines of a records file, one after another.

ghost use Rattle.std.specs.Prelude.{◌≡◌, ◌∷◌, ◌==◌, ℕ, MatchOption};
ghost use Rattle.std.specs.List.{position};
ghost use Rattle.collate_lines.specs.Lines.{PassesSize, lines_left, lines_of};

/// The first line of some bytes, without its LF, and what stands after that LF; `None` where the line has none.
pub fn split_line(bytes: &[u8]) -> (&[u8], Option<&[u8]>)
    ensures { lines_of bytes.now ≡ result.0.now ∷ lines_left result.1 }
{
    match line_end(bytes) {
        Some(end) => (&bytes[..end], Some(&bytes[end + 1..])),
        None => (bytes, None),
    }
}

/// Where the first LF stands.
fn line_end(bytes: &[u8]) -> Option<usize>
    ensures { result ≡ position (λ b. b == 10) bytes.now }
{
    bytes.iter().position(|byte| *byte == b'\n')
}

/// The line that holds the first byte past so many bytes, counted from 0; `None` where the file isn't that long.
pub fn line_past_size(bytes: &[u8], limit: usize) -> Option<usize>
    ensures { MatchOption result ((i : ℕ) → PassesSize limit bytes.now i → ⊥) (PassesSize limit bytes.now) }
{
    if bytes.len() <= limit {
        return None;
    }
    Some(bytes[..limit].iter().filter(|byte| **byte == b'\n').count())
}
