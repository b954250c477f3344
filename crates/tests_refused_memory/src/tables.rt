//! What is made of records: their tables, and collators and normalisers over these.

use crate::asked_texts::RECORDS;
use crate::forms::tell_forms;
use crate::keys::tell_keys;
use crate::orders::tell_orders;
use crate::told::made;
use collate_compile::provider::Provider;
use collate_records::compile::compile;
use collate_records::records::Records;
use icu_codepointtrie::TrieType;
use icu_collator::{Collator, CollatorPreferences};
use icu_collator_types::options::{CollatorOptions, Strength};

const OPTIONS: CollatorOptions = CollatorOptions {
    strength: Some(Strength::Identical),
    alternate_handling: None,
    max_variable: None,
    case_level: None,
};

/// Makes a collator over the tables of a provider, and prints what it answers.
fn tell_collator(rt: &HostRuntime, provider: &Provider) {
    let collator = made(rt, "Collator::try_new_unstable", || {
        Collator::try_new_unstable(
            rt.alloc(),
            provider,
            CollatorPreferences::default(),
            OPTIONS,
        )
    });
    if let Some(collator) = collator {
        tell_keys(rt, &collator.as_borrowed());
        tell_orders(rt, &collator.as_borrowed());
    }
}

/// Compiles records with tries of a type, and prints what is answered over the tables if it is the fast one.
fn tell_tables(rt: &HostRuntime, records: &Records, trie_type: TrieType) {
    let provider = made(rt, "compile", || compile(rt.alloc(), records, trie_type));
    if let Some(provider) = provider
        && trie_type == TrieType::Fast
    {
        tell_collator(rt, &provider);
        tell_forms(rt, &provider);
    }
}

/// Reads records, and prints what is answered over them.
pub fn tell_records(rt: &HostRuntime) {
    let records = made(rt, "Records::read", || Records::read(rt.alloc(), RECORDS));
    if let Some(records) = records {
        tell_tables(rt, &records, TrieType::Small);
        tell_tables(rt, &records, TrieType::Fast);
    }
}
