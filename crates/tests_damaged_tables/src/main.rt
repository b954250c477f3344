//! Changes compiled tables, one thing at a time, and asks normalisers and collators over a provider of them: each
//! refuses them, for an error that has a name, or each of its calls answers what the changed tables mean, read slowly
//! by the rules alone. Collators are asked under so many choices of options that each two values of two options come
//! together.
//!
//! Each list is cut by its last item, in the tables of the worked rows, with fast tries and with small ones, and in
//! fuller tables, in which none is empty. A line says what becomes of these tables, by the name of the error if they
//! are refused; of a trie that is cut, only that it is no trie, refused or answered by, since which cells a trie has is
//! left to its builder.
//!
//! Each bit of the mappings and pairs of the worked rows, and of two words of four characters, is inverted in turn. A
//! line says how many of these tables were refused, how many answered by, and how many misread, and how many bits
//! couldn't be inverted, since what is left is no list or no trie; each that was misread has a line. With any word, as
//! in `tests_damaged_tables all`, each bit of each list of the fuller tables is, which takes long.
#![tactic(auto)]

mod answers;
mod choices;
mod collators;
mod forms;
mod texts;

use answers::{Answer, Counts};
use choices::{COUNT, pair_count};
use collators::collator_answer;
use forms::normalisers_answer;
use icu_codepointtrie::TrieType;
use samples_icu_collator::changed_words::{CHARACTERS, with_bit};
use samples_icu_collator::changes::{CanonicalField, Change, FIELDS, Field, NotChanged, apply};
use samples_icu_collator::held::HeldCollation;
use samples_icu_collator::samples::{full_tables, letters};
use std::alloc::Global;
use std::fmt::Display;
use std::{env, io};

/// Tables that are changed.
#[derive(Clone, Copy)]
enum Sample {
    /// Those of the worked rows, with tries of a type.
    Letters(TrieType),
    /// The fuller ones.
    Full,
}

impl Sample {
    /// A provider of them.
    fn tables(self, alloc: Global) -> Option<HeldCollation<'static>> {
        match self {
            Sample::Letters(trie_type) => letters(alloc, trie_type),
            Sample::Full => full_tables(alloc),
        }
    }
}

/// Prints what calls do over changed tables.
fn print_answer<E: Display>(rt: &HostRuntime, calls: &str, answer: &Answer<E>) -> io::Result<()> {
    match answer {
        Answer::Refused(error) => print!(rt; " {calls} refused, {error}"),
        Answer::Answered => print!(rt; " {calls} answered"),
        Answer::Misread(call) => print!(rt; " {calls} misread, {call}"),
    }
}

/// Prints what becomes of the tables of a provider.
fn print_answers(rt: &HostRuntime, held: &mut HeldCollation<'static>) -> io::Result<()> {
    print_answer(rt, "normalisers", &normalisers_answer(rt.alloc(), held))?;
    print!(rt; ";")?;
    print_answer(rt, "collator", &collator_answer(rt.alloc(), held))?;
    println!(rt; "")
}

/// What is printed of tables whose trie is cut and that aren't misread.
const KINDS: &str = " no trie, refused or answered";

/// Prints whether the tables of a provider are refused or answered by, without saying which.
fn print_kinds(rt: &HostRuntime, held: &mut HeldCollation<'static>) -> io::Result<()> {
    let normalisers = normalisers_answer(rt.alloc(), held).kind();
    let collator = collator_answer(rt.alloc(), held).kind();
    match (normalisers, collator) {
        (Answer::Misread(call), _) | (_, Answer::Misread(call)) => println!(rt; " misread, {call}"),
        _ => println!(rt; "{KINDS}"),
    }
}

/// Prints what becomes of tables with a list cut.
fn print_cut(rt: &HostRuntime, held: &mut HeldCollation<'static>, field: Field) -> io::Result<()> {
    match apply(rt.alloc(), held, field, Change::Cut) {
        Ok(()) if field.is_of_trie() => print_kinds(rt, held),
        Ok(()) => print_answers(rt, held),
        Err(NotChanged::Nothing) => println!(rt; " empty"),
        Err(NotChanged::Memory) => println!(rt; " no memory"),
        Err(_) if field.is_of_trie() => println!(rt; "{KINDS}"),
        Err(_) => println!(rt; " no list"),
    }
}

/// Cuts each list of tables, each in turn.
fn cut_all(rt: &HostRuntime, sample: Sample) -> io::Result<()> {
    for (field, name) in FIELDS {
        print!(rt; "{name} cut:")?;
        match sample.tables(rt.alloc()) {
            Some(mut held) => print_cut(rt, &mut held, field)?,
            None => println!(rt; " no memory")?,
        }
    }
    Ok(())
}

/// What became of tables, as normalisers and as a collator have it.
#[derive(Clone, Copy, Default)]
struct Both {
    normalisers: Counts,
    collator: Counts,
    /// How many couldn't be changed.
    unchanged: u32,
}

/// Prints what is misread with a bit inverted.
fn print_misread(rt: &HostRuntime, bit: usize, answer: Answer<()>) -> io::Result<()> {
    if let Answer::Misread(call) = answer {
        println!(rt; "bit {bit} misread, {call}")?;
    }
    Ok(())
}

/// Counts what becomes of the tables of a provider with a bit inverted, and prints what is misread.
fn count(
    rt: &HostRuntime,
    held: &mut HeldCollation<'static>,
    bit: usize,
    both: &mut Both,
) -> io::Result<()> {
    let normalisers = normalisers_answer(rt.alloc(), held).kind();
    let collator = collator_answer(rt.alloc(), held).kind();
    both.normalisers.count(normalisers);
    both.collator.count(collator);
    print_misread(rt, bit, normalisers)?;
    print_misread(rt, bit, collator)
}

/// Prints what became of changed tables.
fn print_counts(rt: &HostRuntime, calls: &str, counts: Counts) -> io::Result<()> {
    let Counts {
        refused,
        answered,
        misread,
    } = counts;
    print!(rt; " {calls} {refused} refused, {answered} answered, {misread} misread")
}

/// Prints what became of changed tables, as normalisers and as a collator have it.
fn print_both(rt: &HostRuntime, name: &str, both: Both) -> io::Result<()> {
    print!(rt; "{name}, each bit:")?;
    print_counts(rt, "normalisers", both.normalisers)?;
    print!(rt; ";")?;
    print_counts(rt, "collator", both.collator)?;
    let unchanged = both.unchanged;
    println!(rt; "; {unchanged} not inverted")
}

/// Says that a list couldn't be put back as it was.
fn print_stays(rt: &HostRuntime, bit: usize) -> io::Result<()> {
    println!(rt; "bit {bit} stays inverted")
}

/// Inverts each bit of a list in turn.
fn invert_list(
    rt: &HostRuntime,
    held: &mut HeldCollation<'static>,
    field: Field,
    name: &str,
) -> io::Result<()> {
    let mut both = Both::default();
    for bit in 0..usize::MAX {
        match apply(rt.alloc(), held, field, Change::Invert(bit)) {
            Ok(()) => {
                count(rt, held, bit, &mut both)?;
                if apply(rt.alloc(), held, field, Change::Invert(bit)).is_err() {
                    print_stays(rt, bit)?;
                }
            }
            Err(NotChanged::Nothing) => break,
            Err(NotChanged::Memory) => print_misread(rt, bit, Answer::Misread("memory"))?,
            Err(_) => both.unchanged = both.unchanged.wrapping_add(1),
        }
    }
    print_both(rt, name, both)
}

/// Says that there is no memory for changed words of a character.
fn print_no_words(rt: &HostRuntime, c: char) -> io::Result<()> {
    let code_point = c as u32;
    println!(rt; "U+{code_point:04X}: no memory")
}

/// Inverts each bit of the canonical word of a character in turn.
fn invert_canonical(
    rt: &HostRuntime,
    held: &mut HeldCollation<'static>,
    c: char,
) -> io::Result<()> {
    let mut both = Both::default();
    let Ok(kept) = held.canonical.trie.clone(rt.alloc()) else {
        return print_no_words(rt, c);
    };
    for bit in 0..32u32 {
        match with_bit(rt.alloc(), &kept, c, bit) {
            Some(trie) => {
                held.canonical.trie = trie;
                count(rt, held, bit as usize, &mut both)?;
            }
            None => print_no_words(rt, c)?,
        }
    }
    held.canonical.trie = kept;
    let code_point = c as u32;
    print!(rt; "U+{code_point:04X}, ")?;
    print_both(rt, "canonical", both)
}

/// Inverts each bit of the word of a character in the root in turn, which normalisers do not read.
fn invert_root(rt: &HostRuntime, held: &mut HeldCollation<'static>, c: char) -> io::Result<()> {
    let mut counts = Counts::default();
    let Ok(kept) = held.tables.root.trie.clone(rt.alloc()) else {
        return print_no_words(rt, c);
    };
    for bit in 0..32u32 {
        match with_bit(rt.alloc(), &kept, c, bit) {
            Some(trie) => {
                held.tables.root.trie = trie;
                let answer = collator_answer(rt.alloc(), held).kind();
                counts.count(answer);
                print_misread(rt, bit as usize, answer)?;
            }
            None => print_no_words(rt, c)?,
        }
    }
    held.tables.root.trie = kept;
    let code_point = c as u32;
    print!(rt; "U+{code_point:04X}, root, each bit:")?;
    print_counts(rt, "collator", counts)?;
    println!(rt; "")
}

/// Inverts the bits of the mappings, the pairs, and the words of four characters.
fn invert_all(rt: &HostRuntime, held: &mut HeldCollation<'static>) -> io::Result<()> {
    let (steps, pairs) = (CanonicalField::Steps, CanonicalField::Pairs);
    invert_list(rt, held, Field::Canonical(steps), "steps")?;
    invert_list(rt, held, Field::Canonical(pairs), "pairs")?;
    for c in CHARACTERS {
        invert_canonical(rt, held, c)?;
        invert_root(rt, held, c)?;
    }
    Ok(())
}

/// Inverts each bit of each list.
fn invert_each(rt: &HostRuntime, held: &mut HeldCollation<'static>) -> io::Result<()> {
    for (field, name) in FIELDS {
        invert_list(rt, held, field, name)?;
    }
    Ok(())
}

/// Prints what becomes of tables as they are, and of each with a list cut.
fn show_cuts(rt: &HostRuntime, name: &str, sample: Sample) -> io::Result<()> {
    print!(rt; "{name}:")?;
    match sample.tables(rt.alloc()) {
        Some(mut held) => print_answers(rt, &mut held)?,
        None => println!(rt; " no memory")?,
    }
    cut_all(rt, sample)
}

/// Inverts bits of tables: each of the fuller ones, or those of the worked rows that are named above.
fn invert_bits(rt: &HostRuntime, is_whole: bool) -> io::Result<()> {
    let sample = if is_whole {
        Sample::Full
    } else {
        Sample::Letters(TrieType::Small)
    };
    match sample.tables(rt.alloc()) {
        Some(mut held) => {
            if is_whole {
                invert_each(rt, &mut held)
            } else {
                invert_all(rt, &mut held)
            }
        }
        None => println!(rt; "no memory"),
    }
}

/// Prints how many choices of options collators are asked under, and how many pairs of values of two options these
/// have.
fn show_choices(rt: &HostRuntime) -> io::Result<()> {
    let pairs = pair_count();
    println!(rt; "{COUNT} choices of options, {pairs} pairs of values")
}

fn main(rt: HostRuntime) -> io::Result<()> {
    show_choices(&rt)?;
    let is_whole = env::args(&rt)?.count() > 1;
    if !is_whole {
        let fast = Sample::Letters(TrieType::Fast);
        show_cuts(&rt, "worked rows, fast tries", fast)?;
        let small = Sample::Letters(TrieType::Small);
        show_cuts(&rt, "worked rows, small tries", small)?;
        show_cuts(&rt, "fuller tables", Sample::Full)?;
    }
    invert_bits(&rt, is_whole)
}
