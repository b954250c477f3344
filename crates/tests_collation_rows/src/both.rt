//! What is compiled with tries of both types, and answers over both.

use icu_codepointtrie::TrieType;
use samples_icu_collator::compiled::held_tables;
use samples_icu_collator::held::HeldCollation;
use std::alloc::Global;

/// Providers of the tables of the same records.
pub struct Both {
    /// Those with fast tries.
    pub fast: HeldCollation<'static>,
    /// Those with small ones.
    pub small: HeldCollation<'static>,
}

// (let go of as one, and not part by part, so that what owns one is proved sooner)
impl Drop for Both {
    fn drop(self) {
        let Both { fast: _, small: _ } = self;
    }
}

/// Providers of the tables of records; `None` where these are refused, or memory is.
pub fn held_both(alloc: Global, records: &str) -> Option<Both> {
    let fast = held_tables(alloc, records, TrieType::Fast);
    let (fast, small) = fast.zip(held_tables(alloc, records, TrieType::Small))?;
    Some(Both { fast, small })
}

/// Prints a question with the answers over fast tries and over small ones: with one answer where they are the same.
pub fn print_answers(rt: &HostRuntime, question: &str, fast: &str, small: &str) -> Option<()> {
    if fast == small {
        return println!(rt; "{question}: {fast}").ok();
    }
    println!(rt; "{question}: {fast} over fast tries, {small} over small ones").ok()
}
