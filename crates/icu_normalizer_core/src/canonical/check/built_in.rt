//! Characters of which tables contradict what is built in.

ghost use Rattle.std.specs.Prelude.{◌≡◌, ◌&&◌, ◌||◌, MatchOption, nat_eq, take, Option, option_map};
ghost use Rattle.std.specs.Cmp.Lexicographic.{pointwise};
ghost use Rattle.icu_normalizer_core.specs.BuiltInTests.{agrees, is_letter, is_class, is_listed_step, is_full_list, is_starter_if_low, is_unmapped_if_low, names_no_letter};
ghost use Rattle.icu_normalizer_core.specs.CanonicalFaults.{NoneOffends, IsLeastOffender, OffendsBuiltIn};
ghost use Rattle.icu_normalizer_core.specs.CanonicalLists.{AreTriples};
ghost use Rattle.icu_normalizer_core.specs.CanonicalMeaning.{lists_of, meaning};
ghost use Rattle.icu_normalizer_core.specs.CanonicalWords.{is_inside, built_in_full};
ghost use Rattle.icu_normalizer_core.specs.Plain.{Tells};
ghost use Rattle.icu_normalizer_core.specs.Properties.{mapped_to};
ghost use Rattle.icu_normalizer_core.specs.Settled.{left_items};

use super::full_lists::is_inside;
use super::full_start::full_start;
use super::left::Left;
use super::settle::letters;
use super::told::first_refused_of;
use crate::built_in::{built_in_class, built_in_step, is_jamo, is_syllable, singled_out};
use crate::canonical::steps::listed_step;
use crate::canonical::tables::CanonicalTables;
use crate::decomposed::Decomposed;

/// Whether a class is the built-in one, where one is built in.
fn is_class(built_in: Option<u8>, class: u8) -> bool
    ensures { result ≡ is_class built_in class }
{
    match built_in {
        None => true,
        Some(k) => class == k,
    }
}

/// Whether two mappings are the same.
fn is_same_step(a: Decomposed, b: Decomposed) -> bool
    ensures { result ≡ pointwise nat_eq (mapped_to a) (mapped_to b) }
{
    match a {
        Decomposed::Default => matches!(b, Decomposed::Default),
        Decomposed::Singleton(x) => match b {
            Decomposed::Singleton(y) => x == y,
            _ => false,
        },
        Decomposed::Expansion(x, z) => match b {
            Decomposed::Expansion(y, w) => x == y && z == w,
            _ => false,
        },
    }
}

/// Whether a mapping that is listed beside a built-in one is the same.
fn is_listed_step(built_in: Option<Decomposed>, listed: Decomposed) -> bool
    ensures { result ≡ is_listed_step (option_map mapped_to built_in) (mapped_to listed) }
{
    match built_in {
        None => true,
        Some(step) => matches!(listed, Decomposed::Default) || is_same_step(listed, step),
    }
}

/// Whether a character below U+0300 is a starter.
fn is_starter_if_low(c: u32, class: u8) -> bool
    ensures { result ≡ is_starter_if_low c class }
{
    c >= 0x300 || class == 0
}

/// Whether a character below U+00C0 has no mapping.
fn is_unmapped_if_low(c: u32, listed: Decomposed) -> bool
    ensures { result ≡ is_unmapped_if_low c (mapped_to listed) }
{
    c >= 0xc0 || matches!(listed, Decomposed::Default)
}

/// Whether a character is a jamo or a Hangul syllable.
fn is_letter(c: u32) -> bool
    ensures { result ≡ is_letter c }
{
    is_jamo(c) || is_syllable(c)
}

/// Whether a listed mapping names no jamo or syllable, where none is built in.
fn names_no_letter(built_in: Option<Decomposed>, listed: Decomposed) -> bool
    ensures { result ≡ names_no_letter (option_map mapped_to built_in) (mapped_to listed) }
{
    if built_in.is_some() {
        return true;
    }
    match listed {
        Decomposed::Default => true,
        Decomposed::Singleton(a) => !is_letter(a as u32),
        Decomposed::Expansion(a, b) => !(is_letter(a as u32) || is_letter(b as u32)),
    }
}

/// The characters of a mapping.
pub(crate) fn step_characters(step: Decomposed) -> Left
    ensures { left_items result ≡ mapped_to step }
{
    match step {
        Decomposed::Default => Left::none(),
        Decomposed::Singleton(a) => Left::one(a as u32),
        Decomposed::Expansion(a, b) => Left::one(a as u32).with(b as u32),
    }
}

/// The full list of a character with a built-in mapping.
#[tactic(auto, unfolding(crate::specs::CanonicalWords::built_in_full))]
pub(crate) fn built_in_full(c: u32) -> Option<Left>
    ensures { option_map left_items result ≡ built_in_full c }
{
    if is_syllable(c) {
        Some(letters(c))
    } else if is_jamo(c) || c == 0xfffd {
        Some(Left::one(c))
    } else {
        match singled_out(c) {
            None => None,
            Some(step) => Some(step_characters(step)),
        }
    }
}

/// Whether the full list of a character is inside the tables and is the built-in one, where one is built in.
fn is_full_list(tables: &CanonicalTables<'_>, c: char) -> bool
    ensures { result ≡ is_full_list (built_in_full c) (is_inside tables.now.scalars16 tables.now.scalars24 ((lists_of tables.now).word c)) (take 9 ((meaning tables.now).full c)) }
{
    match built_in_full(c as u32) {
        None => true,
        Some(list) => { is_inside(tables, tables.word(c)) && full_start(tables, c).is(&list) }
    }
}

/// Whether the tables contradict nothing that is built in of a character.
#[tactic(auto, unfolding(crate::specs::BuiltInTests::agrees))]
fn agrees(tables: &CanonicalTables<'_>, c: char) -> bool
    requires { AreTriples tables.now.steps }
    ensures { result ≡ agrees (lists_of tables.now) c }
{
    let code = c as u32;
    let class = tables.class(c);
    let step = built_in_step(code);
    let listed = listed_step(&tables.steps, code);
    is_class(built_in_class(code), class)
        && is_starter_if_low(code, class)
        && is_unmapped_if_low(code, listed)
        && is_listed_step(step, listed)
        && names_no_letter(step, listed)
        && is_full_list(tables, c)
}

/// The least character of which the tables contradict what is built in, `None` where there is none.
pub(super) fn first_built_in_fault(tables: &CanonicalTables<'_>, told: &[u32]) -> Option<char>
    requires triples { AreTriples tables.now.steps }
    requires tells { Tells (lists_of tables.now) told.now }
    ensures { MatchOption result (NoneOffends (OffendsBuiltIn (lists_of tables.now))) (IsLeastOffender (OffendsBuiltIn (lists_of tables.now))) }
{
    first_refused_of(told, |c| agrees(tables, c))
}
