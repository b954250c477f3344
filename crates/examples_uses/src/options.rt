//! Options of a collator: what they resolve to.
ghost use Rattle.std.specs.Prelude.{◌≡◌};
ghost use Rattle.icu_collator_types.specs.declared.options.AlternateHandling.TheVariants.{Shifted};

use icu_collator_types::options::{
    AlternateHandling, CollatorOptions, CollatorPreferences, FileSettings, ResolvedCollatorOptions,
    Strength,
};

/// The options of a caller who asks for a strength and for `Shifted`, over what a file sets.
pub fn resolved_for(strength: Strength, settings: &FileSettings) -> ResolvedCollatorOptions
    ensures strength { result.strength ≡ strength }
    ensures alternate_handling { result.alternate_handling ≡ Shifted }
    ensures max_variable { result.max_variable ≡ settings.now.max_variable }
    ensures case_first { result.case_first ≡ settings.now.case_first }
{
    let options = CollatorOptions {
        strength: Some(strength),
        alternate_handling: Some(AlternateHandling::Shifted),
        max_variable: None,
        case_level: None,
    };
    ResolvedCollatorOptions::resolve(&options, &CollatorPreferences::default(), settings)
}
