//! The least character that a test refuses.

ghost use Rattle.std.specs.Prelude.{◌<◌, ℕ, true, false, MatchOption};
ghost use Rattle.std.specs.Char.{IsScalar};

/// The least character of which the test says no, `None` where it says yes of each.
pub(super) fn first_refused<F: Fn(char) -> bool>(accepts: F) -> Option<char>
    requires { F.IsAlwaysCallable accepts }
    ensures { MatchOption result
        ((c : ℕ) → IsScalar c → F.post accepts c true)
        (λ c. IsScalar c × F.post accepts c false × ((d : ℕ) → IsScalar d → d < c → F.post accepts d true)) }
{
    for code in 0..0x11_0000u32 {
        if let Some(c) = char::from_u32(code) {
            if !accepts(c) {
                return Some(c);
            }
        }
    }
    None
}
