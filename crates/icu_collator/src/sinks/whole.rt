//! Keys that are there as a whole, on their way to a sink.

ghost use Rattle.std.specs.Prelude.{IfOk, IfErr};

use super::CollationKeySink;

/// Writes a key that is there as a whole: the sink gets it in one piece.
pub(crate) fn write_key<S: CollationKeySink>(
    sink: &mut S,
    key: &[u8],
) -> Result<S::Output, S::Error>
    ensures ok { IfOk result (λ output. S.has_written sink.old key.now sink.new output) }
    ensures err { IfErr result (λ error. S.has_failed sink.old key.now sink.new error) }
{
    let mut state = S::State::default();
    if let Err(error) = sink.write(&mut state, key) {
        return Err(error);
    }
    match sink.finish(state) {
        Ok(output) => Ok(output),
        Err(error) => Err(error),
    }
}
