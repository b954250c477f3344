//! Laws of sameness: collation data in two forms, as records and as tables, that say the same of scalar
//! values give the same answers for all texts of scalar values, with every option; data that say the
//! same of the characters that a text reaches, as before and after a change of others, give the same of
//! that text. Levels are of elements and settings, and keys of levels. Each function's contract is the
//! law, and its body is empty.

ghost use Rattle.std.specs.Char.{IsScalar};
ghost use Rattle.std.specs.Prelude.{◌≡◌, ℕ, All, List};
ghost use Rattle.icu_normalizer_core.specs.Canonical.{IsDecomposing};
ghost use Rattle.icu_collator_types.specs.declared.elements.Element.{Element};
ghost use Rattle.icu_collator_types.specs.declared.options.ResolvedCollatorOptions.{ResolvedCollatorOptions};
ghost use Rattle.icu_collator_core.specs.Collation.{Collation};
ghost use Rattle.icu_normalizer_core.specs.Sameness.{AreSameCanonical};
ghost use Rattle.icu_collator_core.specs.Sameness.{AreSameLeads, AreSameOf, AreSameWeights};
ghost use Rattle.icu_collator.specs.KeyBytes.{key_bytes, key_of_text};
ghost use Rattle.icu_collator.specs.Levels.{Levels, levels_of, levels_of_text};
ghost use Rattle.icu_collator.specs.Order.{collation_order};
ghost use Rattle.icu_collator_core.specs.SameSettings.{AreSameSettings};

/// A text has the same levels under both.
pub fn same_data_have_same_levels()
    ensures { (a b : Collation) (options : ResolvedCollatorOptions) (text : List ℕ)
        → AreSameCanonical a.canonical b.canonical → AreSameWeights a.weights b.weights → AreSameSettings a b
        → IsDecomposing b.canonical
        → All IsScalar text → levels_of_text a options text ≡ levels_of_text b options text }
{}

/// A text has the same key under both.
pub fn same_data_have_same_keys()
    ensures { (a b : Collation) (options : ResolvedCollatorOptions) (text : List ℕ)
        → AreSameCanonical a.canonical b.canonical → AreSameWeights a.weights b.weights → AreSameSettings a b
        → IsDecomposing b.canonical
        → All IsScalar text → key_of_text a options text ≡ key_of_text b options text }
{}

/// Two texts compare alike under both.
pub fn same_data_order_alike()
    ensures { (a b : Collation) (options : ResolvedCollatorOptions) (x y : List ℕ)
        → AreSameCanonical a.canonical b.canonical → AreSameWeights a.weights b.weights → AreSameSettings a b
        → IsDecomposing b.canonical
        → All IsScalar x → All IsScalar y → collation_order a options x y ≡ collation_order b options x y }
{}

/// Levels are of the elements, the decomposed list, the options and the settings: data with the same
/// settings give elements and their list the same levels, whatever else they say.
pub fn same_settings_have_same_levels()
    ensures { (a b : Collation) (options : ResolvedCollatorOptions) (elements : List Element) (list : List ℕ)
        → AreSameSettings a b
        → levels_of a options elements list ≡ levels_of b options elements list }
{}

/// A key is of the levels, the decomposed list among them, of the options, of what is compressible, and
/// of reordering: levels have the same key by all data that say the same of lead bytes and of what
/// stands in the place of each primary.
pub fn same_levels_have_same_keys()
    ensures { (a b : Collation) (options : ResolvedCollatorOptions) (levels : Levels)
        → AreSameLeads a.weights b.weights → ((p : ℕ) → a.reordered p ≡ b.reordered p)
        → key_bytes a options levels ≡ key_bytes b options levels }
{}

/// A text that reaches no character on which two data differ has the same levels under both, where the
/// settings agree.
pub fn unchanged_texts_have_same_levels()
    ensures { (a b : Collation) (options : ResolvedCollatorOptions) (text : List ℕ)
        → IsDecomposing a.canonical → IsDecomposing b.canonical → AreSameSettings a b
        → AreSameOf a b text → All IsScalar text
        → levels_of_text a options text ≡ levels_of_text b options text }
{}

/// Such a text has the same key under both.
pub fn unchanged_texts_have_same_keys()
    ensures { (a b : Collation) (options : ResolvedCollatorOptions) (text : List ℕ)
        → IsDecomposing a.canonical → IsDecomposing b.canonical → AreSameSettings a b
        → AreSameOf a b text → AreSameLeads a.weights b.weights → All IsScalar text
        → key_of_text a options text ≡ key_of_text b options text }
{}

/// Two such texts compare alike under both.
pub fn unchanged_texts_order_alike()
    ensures { (a b : Collation) (options : ResolvedCollatorOptions) (x y : List ℕ)
        → IsDecomposing a.canonical → IsDecomposing b.canonical → AreSameSettings a b
        → AreSameOf a b x → AreSameOf a b y → All IsScalar x → All IsScalar y
        → collation_order a options x y ≡ collation_order b options x y }
{}
