//! Texts in units, as the keys of contexts are.

ghost use Rattle.std.specs.Prelude.{◌≡◌, ◌++◌, flat_map, IfOk, OnOk};
ghost use Rattle.icu_char16trie.specs.Cursors.{units_of};
ghost use Rattle.collate_words.specs.ContextKeys.{key_text};

use std::alloc::{AllocError, Global};

/// Appends the units of a character.
fn push_units(units: &mut Vec<u16>, character: char) -> Result<(), AllocError>
    ensures { OnOk result (units.new.items ≡ units.old.items ++ units_of character) }
{
    let code = character as u32;
    if code < 0x1_0000 {
        units.push(code as u16)?;
        return Ok(());
    }
    units.push((0xd800 + (code - 0x1_0000) / 0x400) as u16)?;
    units.push((0xdc00 + code % 0x400) as u16)?;
    Ok(())
}

/// The units of characters in reading order.
fn units_forward(alloc: Global, characters: &[char]) -> Result<Vec<u16>, AllocError>
    ensures { IfOk result (λ units. units.items ≡ flat_map units_of characters.now) }
{
    let mut units = Vec::new(alloc);
    for character in characters {
        push_units(&mut units, *character)?;
    }
    Ok(units)
}

/// The units of a key: of characters in reading order, or of the last one first where they stand before another.
pub fn units_of_key(
    alloc: Global,
    characters: &[char],
    backward: bool,
) -> Result<Vec<u16>, AllocError>
    ensures { IfOk result (λ units. units.items ≡ flat_map units_of (key_text backward characters.now)) }
{
    if !backward {
        return units_forward(alloc, characters);
    }
    let mut turned = characters.to_vec(alloc)?;
    turned.reverse();
    units_forward(alloc, turned.as_slice())
}
