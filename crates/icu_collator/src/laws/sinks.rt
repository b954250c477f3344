//! A law of sinks: whatever a key is written to, what is read back is the key. The function's contract
//! is the law, and its body is empty.

ghost use Rattle.std.specs.Prelude.{◌≡◌, ℕ, List};

use crate::sinks::CollationKeySink;

/// A key that two sinks took is read back alike from both, whatever sinks they are: a vector, a queue,
/// an inline vector or a slice that the key fits.
pub fn sinks_hold_the_same<S: CollationKeySink, T: CollationKeySink>()
    ensures { (key : List ℕ) (first now : S) (output : S.Output) (other_first other_now : T) (other_output : T.Output)
        → S.has_written first key now output → T.has_written other_first key other_now other_output
        → S.read_back first now output ≡ T.read_back other_first other_now other_output }
{}
