//! A slice as a sink of keys: a key stands at its beginning.

ghost use Rattle.std.specs.Prelude.{◌≡◌, ◌+◌, ◌≤◌, ◌++◌, min, length, refl, take};
ghost use Rattle.icu_collator.specs.Sinks.{FitsSlice, HasOverlaid, PassesSlice, byte_count, greatest_count, overlaid, written_at};
ghost use Rattle.std.proofs.Common.{◌∙◌, ap, sym};
ghost use Rattle.std.proofs.Math.Seq.{take-append_seam, take-nil};

use super::{CollationKeySink, TooSmall};

impl CollationKeySink for &mut [u8] {
    type Error = TooSmall;

    type State = usize;

    type Output = usize;

    ghost is_start = { λ count. count ≡ 0 };

    ghost has_taken = { λ first bytes now count. HasOverlaid first bytes now × (count ≡ byte_count bytes) };

    ghost has_written = { λ first key now count. FitsSlice first key now count };

    ghost has_failed = { λ first key now error. PassesSlice first key now error };

    ghost read_back = { λ _ now count. take count now.now };

    ghost starts = { λ _ at_zero. at_zero };

    ghost begins = { λ sink _ at_zero. (record { same_reference = refl; contents = sym (ap (λ l. l ++ sink.now) (take-nil (length sink.now))) }, at_zero) };

    ghost keeps = { λ _ key now _ whole. ap (λ n. take n now.now) whole.counted_all ∙ ap (take (length key)) whole.contents ∙ take-append_seam key _ };

    /// Writes what fits, and counts all.
    fn write(&mut self, count: &mut usize, bytes: &[u8]) -> Result<(), TooSmall> {
        *count = write_at(self, *count, bytes);
        Ok(())
    }

    fn finish(&mut self, count: usize) -> Result<usize, TooSmall> {
        if count <= self.len() {
            Ok(count)
        } else {
            Err(TooSmall::new(count))
        }
    }
}

/// Writes as many of the bytes as fit after an index, and answers the index after all of them.
fn write_at(slice: &mut [u8], index: usize, bytes: &[u8]) -> usize
    ensures written { slice.new ≡ written_at slice.old index bytes.now }
    ensures counted { result ≡ min (index + length bytes.now) greatest_count }
    ensures bounded { length slice.old ≤ greatest_count }
{
    if index < slice.len() {
        let (_, rest) = slice.split_at_mut(index);
        write_front(rest, bytes);
    }
    index.saturating_add(bytes.len())
}

/// Writes as many of the bytes as fit.
fn write_front(slice: &mut [u8], bytes: &[u8])
    ensures { slice.new ≡ overlaid slice.old bytes.now }
{
    let count = bytes.len().min(slice.len());
    slice[..count].copy_from_slice(&bytes[..count]);
}
