//! Lists as sinks of keys: a key stands after what a list held.

ghost use Rattle.std.specs.Prelude.{◌≡◌, ◌++◌, ⊤, drop, length};
ghost use Rattle.std.proofs.Common.{◌∙◌, ap, sym};
ghost use Rattle.std.proofs.Math.Seq.{drop-append_seam};
ghost use Rattle.std.proofs.lemmas.List.{append-nil};
ghost use Rattle.icu_normalizer.specs.Sinks.{AddsPrefix};

use super::CollationKeySink;
use smallvec::SmallVec;
use std::alloc::AllocError;
use std::collections::VecDeque;
use std::io::Write;

impl CollationKeySink for Vec<u8> {
    type Error = AllocError;

    type State = ();

    type Output = ();

    ghost is_start = { λ _. ⊤ };

    ghost has_taken = { λ first bytes now _. now.items ≡ first.items ++ bytes };

    ghost has_written = { λ first key now _. now.items ≡ first.items ++ key };

    ghost has_failed = { λ first key now _. AddsPrefix first.items key now.items };

    ghost read_back = { λ first now _. drop (length first.items) now.items };

    ghost starts = { λ _ _. tt };

    ghost begins = { λ sink _ _. sym (append-nil sink.items) };

    ghost keeps = { λ first key now _ written. ap (drop (length first.items)) written ∙ drop-append_seam first.items key };

    fn write(&mut self, _state: &mut (), bytes: &[u8]) -> Result<(), AllocError> {
        self.extend_from_slice(bytes)?;
        Ok(())
    }

    fn finish(&mut self, _state: ()) -> Result<(), AllocError> {
        Ok(())
    }
}

impl CollationKeySink for VecDeque<u8> {
    type Error = AllocError;

    type State = ();

    type Output = ();

    ghost is_start = { λ _. ⊤ };

    ghost has_taken = { λ first bytes now _. now.items ≡ first.items ++ bytes };

    ghost has_written = { λ first key now _. now.items ≡ first.items ++ key };

    ghost has_failed = { λ first key now _. AddsPrefix first.items key now.items };

    ghost read_back = { λ first now _. drop (length first.items) now.items };

    ghost starts = { λ _ _. tt };

    ghost begins = { λ sink _ _. sym (append-nil sink.items) };

    ghost keeps = { λ first key now _ written. ap (drop (length first.items)) written ∙ drop-append_seam first.items key };

    fn write(&mut self, _state: &mut (), bytes: &[u8]) -> Result<(), AllocError> {
        match Write::write(self, bytes) {
            Ok(_) => Ok(()),
            Err(_) => Err(AllocError),
        }
    }

    fn finish(&mut self, _state: ()) -> Result<(), AllocError> {
        Ok(())
    }
}

impl<const N: usize> CollationKeySink for SmallVec<u8, N> {
    type Error = AllocError;

    type State = ();

    type Output = ();

    ghost is_start = { λ _. ⊤ };

    ghost has_taken = { λ first bytes now _. now.items ≡ first.items ++ bytes };

    ghost has_written = { λ first key now _. now.items ≡ first.items ++ key };

    ghost has_failed = { λ first key now _. AddsPrefix first.items key now.items };

    ghost read_back = { λ first now _. drop (length first.items) now.items };

    ghost starts = { λ _ _. tt };

    ghost begins = { λ sink _ _. sym (append-nil sink.items) };

    ghost keeps = { λ first key now _ written. ap (drop (length first.items)) written ∙ drop-append_seam first.items key };

    fn write(&mut self, _state: &mut (), bytes: &[u8]) -> Result<(), AllocError> {
        self.extend_from_slice(bytes)?;
        Ok(())
    }

    fn finish(&mut self, _state: ()) -> Result<(), AllocError> {
        Ok(())
    }
}
