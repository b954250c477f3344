//! Values noted for keys of a byte, to see whether one key has two.

ghost use Rattle.std.specs.Prelude.{◌≡◌, ◌==◌, true, MatchOption, None, Some, set, slice_index_or};

/// Notes the value of a key; whether it had none, or the same one.
pub(super) fn note(noted: &mut [Option<u8>; 256], key: u8, value: u8) -> bool
    ensures noted { noted.new ≡ set noted.old key (Some value) }
    ensures told { MatchOption (slice_index_or noted.old key None) (result ≡ true) (λ other. result ≡ (other == value)) }
{
    let before = noted[key as usize];
    noted[key as usize] = Some(value);
    match before {
        None => true,
        Some(other) => other == value,
    }
}
