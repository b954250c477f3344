//! Characters that NFD leaves in their place.

ghost use Rattle.std.specs.Prelude.{◌≡◌, [], ◌∷◌, IfSome, IfNone};
ghost use Rattle.icu_normalizer_core.specs.FormData.{form_meaning};
ghost use Rattle.icu_normalizer_core.specs.Readable.{IsReadable};
ghost use Rattle.icu_normalizer.specs.Splits.{IsInPlace};

use icu_normalizer_core::canonical::Reading;
use icu_normalizer_core::decomposition::FormData;

/// The class of a character that is in its place after one of class `before`: it stands for itself, and if it is a
/// mark, then its class is not below `before`. `None` for any other.
#[inline]
pub(super) fn class_in_place(basis: FormData<'_>, before: u8, c: char) -> Option<u8>
    requires { IsReadable (form_meaning basis) }
    ensures class { IfSome result (λ class. class ≡ (form_meaning basis.entry).class c) }
    ensures some { IfSome result (λ _. IsInPlace (form_meaning basis.entry) before c) }
    ensures none { IfNone result (IsInPlace (form_meaning basis.entry) before c → ⊥) }
{
    if c < '\u{a0}' {
        return Some(0);
    }
    let class = match basis.reading(c) {
        Reading::Itself(class) => class,
        Reading::Two(_, _) => return None,
        Reading::Three(_, _, _) => return None,
        Reading::Other => own_class(basis, c)?,
    };
    if class == 0 || before <= class {
        Some(class)
    } else {
        None
    }
}

/// The class of a character that is its own full list.
fn own_class(basis: FormData<'_>, c: char) -> Option<u8>
    ensures class { IfSome result (λ class. class ≡ (form_meaning basis.entry).class c) }
    ensures some { IfSome result (λ _. (form_meaning basis.entry).full c ≡ c ∷ []) }
    ensures none { IfNone result ((form_meaning basis.entry).full c ≡ c ∷ [] → ⊥) }
{
    let mut list = basis.full_list(c);
    let first = list.next()?;
    if first == c && list.next().is_none() {
        Some(basis.class(c))
    } else {
        None
    }
}
