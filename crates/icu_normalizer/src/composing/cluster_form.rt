//! The NFC of clusters, character by character.

ghost use Rattle.std.specs.Prelude.{◌≡◌, ◌+◌, ◌≤◌, [], ◌++◌, length, option_to_list, IfNone, IfOk, OnOk};
ghost use Rattle.icu_normalizer_core.specs.FormData.{form_meaning};
ghost use Rattle.icu_normalizer_core.specs.Readable.{IsReadable};
ghost use Rattle.icu_normalizer.specs.Composing.{IsCluster, IsComposable};
ghost use Rattle.icu_normalizer.specs.Texts.{IsAtEnd};

use super::clusters::next_of_cluster;
use super::composer::Composer;
use crate::text_sources::Text;
use icu_normalizer_core::decomposition::{FormData, Run};
use std::alloc::{AllocError, Global};

/// What is left of the NFC of a cluster.
#[derive(Debug)]
pub(super) struct ClusterForm<'d> {
    run: Run<'d>,
    composer: Composer<'d>,
    ghost same: { form_meaning run.basis ≡ form_meaning composer.basis },
}

// (let go of as one, and not part by part, so that what owns one is proved sooner)
impl Drop for ClusterForm<'_> {
    fn drop(self) {
        let ClusterForm {
            run: _,
            composer: _,
        } = self;
    }
}

impl<'d> ClusterForm<'d> {
    ghost use Rattle.icu_normalizer.specs.ClusterForm.{IsBegun, IsFresh, form_data, form_left, form_size};

    /// No cluster was read yet.
    pub(super) fn new(alloc: Global, basis: FormData<'d>) -> ClusterForm<'d>
        requires readable { IsReadable (form_meaning basis) }
        requires composable { IsComposable (form_meaning basis) }
        ensures fresh { IsFresh result }
        ensures same { form_data result ≡ form_meaning basis.entry }
    {
        ClusterForm {
            run: Run::new(alloc, basis),
            composer: Composer::new(alloc, basis),
        }
    }

    /// Reads the first cluster of a text: its first character, and those after it up to the next steady one. The answer
    /// is what stands after the cluster.
    pub(super) fn begin<T: Text>(&mut self, basis: FormData<'_>, text: T) -> Result<T, AllocError>
        requires fresh { IsFresh self.old }
        requires data { form_data self.old ≡ form_meaning basis }
        requires some { IsAtEnd (T.spelled text) → ⊥ }
        ensures cluster { IfOk result (λ rest. IsCluster (form_meaning basis.entry) (T.spelled text).characters (form_left self.new) (T.spelled rest).characters) }
        ensures begun { OnOk result (IsBegun self.new) }
        ensures same { form_data self.new ≡ form_data self.old }
    {
        let Some(first) = text.split_char() else {
            return Ok(text);
        };
        let c = first.0.unwrap_or(char::REPLACEMENT_CHARACTER);
        self.run.push_decomposed(c)?;
        let mut rest = first.1;
        'chars: while let Some(read) = next_of_cluster(basis, rest) {
            self.run.push_decomposed(read.0)?;
            rest = read.1;
        }
        self.run.finish()?;
        Ok(rest)
    }

    /// The first character that is left.
    #[inline]
    pub(super) fn next(&mut self) -> Result<Option<char>, AllocError>
        requires { IsBegun self.old }
        ensures left { IfOk result (λ out. form_left self.old ≡ option_to_list out ++ form_left self.new) }
        ensures done { IfOk result (λ out. IfNone out (form_left self.new ≡ [])) }
        ensures fewer { IfOk result (λ out. form_size self.new + length (option_to_list out) ≤ form_size self.old) }
        ensures begun { OnOk result (IsBegun self.new) }
        ensures same { form_data self.new ≡ form_data self.old }
    {
        if let Some(c) = self.composer.pop() {
            return Ok(Some(c));
        }
        while let Some(c) = self.run.pop() {
            if let Some(out) = self.composer.push(c)? {
                return Ok(Some(out));
            }
        }
        Ok(self.composer.finish())
    }
}
