//! The words of the program, and what commands are answered, by whole runs. Expected values come from the specification's
//! worked examples, and from an independent reading of the file format.

use crate::letters::LETTERS;
use assertions::assert_same;
use collate_run::choice::Choice;
use collate_run::serve;
use collate_run::watched::Watched;
use icu_collator_types::options::{
    AlternateHandling, CaseLevel, CollationCaseFirst, CollationNumericOrdering, MaxVariable,
    Strength,
};
use std::alloc::{AllocError, Global};
use std::test::Fail;

/// The words of a program.
pub(crate) fn words_of(alloc: Global, texts: &[&str]) -> Result<Vec<String>, AllocError> {
    let mut words = Vec::new(alloc);
    for text in texts {
        words.push(String::from_str(alloc, text)?)?;
    }
    Ok(words)
}

#[test]
fn choices_are_a_file_and_options_in_any_order(rt: HostRuntime) -> Result<(), Fail> {
    let alloc = rt.alloc();
    let texts = [
        "a.records",
        "numeric=on",
        "casefirst=upper",
        "strength=identical",
        "maxvariable=currency",
        "caselevel=on",
        "alternate=shifted",
    ];
    let words = words_of(alloc, &texts)?;
    let choice = Choice::read(&words).ok_or("no choice")?;
    assert_same!(rt; *choice.file, *"a.records");
    let (options, preferences) = (choice.options, choice.prefs);
    assert_same!(rt; options.strength, Some(Strength::Identical));
    assert_same!(rt; options.alternate_handling, Some(AlternateHandling::Shifted));
    assert_same!(rt; options.max_variable, Some(MaxVariable::Currency));
    assert_same!(rt; options.case_level, Some(CaseLevel::On));
    assert_same!(rt; preferences.case_first, Some(CollationCaseFirst::Upper));
    assert_same!(rt; preferences.numeric_ordering, Some(CollationNumericOrdering::True));
    Ok(())
}

#[test]
fn what_no_word_gives_is_left_open(rt: HostRuntime) -> Result<(), Fail> {
    let words = words_of(rt.alloc(), &["strength=primary"])?;
    let choice = Choice::read(&words).ok_or("no choice")?;
    assert_same!(rt; *choice.file, *"strength=primary");
    let (options, preferences) = (choice.options, choice.prefs);
    assert_same!(rt; options.strength, None);
    assert_same!(rt; options.alternate_handling, None);
    assert_same!(rt; options.max_variable, None);
    assert_same!(rt; options.case_level, None);
    assert_same!(rt; preferences.case_first, None);
    assert_same!(rt; preferences.numeric_ordering, None);
    assert_same!(rt; *preferences.locale, *"");
    assert!(rt; preferences.collation_type.is_none());
    Ok(())
}

#[test]
fn other_words_are_no_choice(rt: HostRuntime) -> Result<(), Fail> {
    let alloc = rt.alloc();
    let others: [&[&str]; 9] = [
        &[],
        &["a.records", "strength=loud"],
        &["a.records", "strength"],
        &["a.records", "Strength=primary"],
        &["a.records", "numeric=true"],
        &["a.records", ""],
        &["a.records", "strength=primary", "strength=primary"],
        &[
            "a.records",
            "casefirst=off",
            "numeric=on",
            "casefirst=upper",
        ],
        &["a.records", "numeric=on", "x"],
    ];
    for texts in others {
        let words = words_of(alloc, texts)?;
        assert!(rt; Choice::read(&words).is_none(), "{texts:?}");
    }
    Ok(())
}

/// What a run writes that ends well.
fn written(alloc: Global, texts: &[&str], file: &[u8], commands: &[u8]) -> Result<Vec<u8>, Fail> {
    let words = words_of(alloc, texts)?;
    let choice = Choice::read(&words);
    let (mut written, mut errors) = (Vec::new(alloc), Vec::new(alloc));
    let mut reader = Watched::new(commands);
    let mut writer = Watched::new(&mut written);
    let status = serve::serve(
        alloc,
        choice.as_ref(),
        Ok(file),
        &mut reader,
        &mut writer,
        &mut errors,
    );
    if status != 0 || !errors.is_empty() {
        return Err(Fail::from("the run ended by a fault"));
    }
    Ok(written)
}

#[test]
fn a_run_answers_in_order(rt: HostRuntime) -> Result<(), Fail> {
    let alloc = rt.alloc();
    let rows: [(&str, &[u8], &[u8]); 4] = [
        (
            "strength=primary",
            b"add ch\nadd cl\nadd ab\nlist\nadd ab\nbetween a\tch\nbetween ch\ta\nremove x\nadd\n",
            b"added\nadded\nadded\nnames 3\nab\nch\ncl\nduplicate\nnames 2\nab\nch\nnames 0\nabsent\nbad\n",
        ),
        (
            "strength=primary",
            b"add b\nadd \xc3\xa1\nadd a\nfind a\n",
            b"added\nadded\nadded\nnames 2\n\xc3\xa1\na\n",
        ),
        (
            "strength=tertiary",
            b"add b\nadd \xc3\xa1\nadd a\nlist\nremove a\nremove a\nlist\nadd a\nbetween \ta\nbetween a",
            b"added\nadded\nadded\nnames 3\na\n\xc3\xa1\nb\nremoved\nabsent\nnames 2\n\xc3\xa1\nb\nadded\nnames 1\na\nbad\n",
        ),
        (
            "strength=identical",
            b"add a\xff\nfind a\xef\xbf\xbd\nkey a\nkey \n",
            b"added\nnames 1\na\xff\n2a1001050101050101010192\n01010101010101\n",
        ),
    ];
    for (word, commands, replies) in rows {
        let text = written(alloc, &["a.records", word], LETTERS, commands)?;
        assert_same!(rt; *text.as_slice(), *replies; word);
    }
    Ok(())
}

/// The digits, and a.
const DIGITS: &[u8] = b"w 0061 ; [2A100000.0500.0.0500.0]
w 0030 ; [11100000.0500.0.0500.0]
w 0031 ; [11110000.0500.0.0500.0]
w 0032 ; [11120000.0500.0.0500.0]
w 0033 ; [11130000.0500.0.0500.0]
w 0034 ; [11140000.0500.0.0500.0]
w 0035 ; [11150000.0500.0.0500.0]
w 0036 ; [11160000.0500.0.0500.0]
w 0037 ; [11170000.0500.0.0500.0]
w 0038 ; [11180000.0500.0.0500.0]
w 0039 ; [11190000.0500.0.0500.0]
digit 0030 0
digit 0031 1
digit 0032 2
digit 0033 3
digit 0034 4
digit 0035 5
digit 0036 6
digit 0037 7
digit 0038 8
digit 0039 9
";

#[test]
fn numbers_stand_by_value(rt: HostRuntime) -> Result<(), Fail> {
    let words = ["a.records", "strength=primary", "numeric=on"];
    let commands = b"add a10\nadd a9\nadd a010\nlist\n";
    let text = written(rt.alloc(), &words, DIGITS, commands)?;
    let replies = b"added\nadded\nadded\nnames 3\na9\na10\na010\n";
    assert_same!(rt; *text.as_slice(), *replies.as_slice());
    Ok(())
}

/// The letters, and characters on which each option tells.
const SIGNS: &[u8] = b"set groups 0306 030A 030E 0312
w 0020 ; [03040000.0500.0.0500.0]
w 002E ; [03080000.0500.0.0500.0]
w 002B ; [030C0000.0500.0.0500.0]
w 0024 ; [03100000.0500.0.0500.0]
w 0031 ; [11110000.0500.0.0500.0]
w 0041 ; [2A100000.0500.2.0900.0]
w 0061 ; [2A100000.0500.0.0500.0]
digit 0031 1
set casefirst lower
";

#[test]
fn each_option_tells_in_keys(rt: HostRuntime) -> Result<(), Fail> {
    let alloc = rt.alloc();
    let rows: [(&[&str], &[u8]); 13] = [
        (
            &["a.records"],
            b"2a1003042a100308030c03101111010b010144c90801\n",
        ),
        (
            &["a.records", "strength=primary"],
            b"2a1003042a100308030c03101111\n",
        ),
        (
            &["a.records", "strength=secondary"],
            b"2a1003042a100308030c03101111010b01\n",
        ),
        (
            &["a.records", "strength=quaternary"],
            b"2a1003042a100308030c03101111010b010144c908010101\n",
        ),
        (
            &["a.records", "strength=identical"],
            b"2a1003042a100308030c03101111010b010144c908010101019251725f5c5562\n",
        ),
        (
            &["a.records", "alternate=shifted"],
            b"2a102a100308030c03101111010a010145c90801\n",
        ),
        (
            &["a.records", "alternate=shifted", "maxvariable=punctuation"],
            b"2a102a10030c031011110109010145c90701\n",
        ),
        (
            &["a.records", "alternate=shifted", "maxvariable=symbol"],
            b"2a102a10031011110108010145c90601\n",
        ),
        (
            &["a.records", "maxvariable=currency", "alternate=shifted"],
            b"2a102a1011110107010145c90501\n",
        ),
        (
            &["a.records", "caselevel=on"],
            b"2a1003042a100308030c03101111010b0101cf4001c4c90801\n",
        ),
        (
            &["a.records", "casefirst=off"],
            b"2a1003042a100308030c03101111010b0101c4c90801\n",
        ),
        (
            &["a.records", "casefirst=upper"],
            b"2a1003042a100308030c03101111010b010186098801\n",
        ),
        (
            &["a.records", "numeric=on"],
            b"2a1003042a100308030c03101003010b010144c90801\n",
        ),
    ];
    for (words, key) in rows {
        let text = written(alloc, words, SIGNS, b"key a A.+$1\n")?;
        assert_same!(rt; *text.as_slice(), *key; words);
    }
    Ok(())
}
