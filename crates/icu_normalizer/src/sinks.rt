//! What normal forms are written to.

ghost use Rattle.std.specs.Prelude.{◌≡◌, ℕ, List, [], ◌∷◌, ◌++◌, OnOk, OnErr, IfErr, encode_utf8_all, string_bytes};
ghost use Rattle.std.specs.Char.Escape.{encode_utf16};
ghost use Rattle.icu_normalizer.specs.Sinks.{AddsPrefix};

use std::alloc::AllocError;
use std::fmt::Display;
use thiserror::Error;

/// A sink of text: it takes characters, and holds them in UTF-8.
///
/// `contents` is what it holds, `takes` what a write that was taken may do, and `fails` what one that failed may do,
/// with its error.
pub trait TextSink {
    /// Why a character can't be taken.
    type Error: Drop;

    ghost contents: { Self → List ℕ };

    ghost takes: { Self → Self → Type 0 };

    ghost fails: { Self → Self.Error → Self → Type 0 };

    /// Takes a text. After an error the sink holds what it held, and a prefix of the text.
    fn write_str(&mut self, text: &str) -> Result<(), Self::Error>
        ensures ok { OnOk result (contents self.new ≡ contents self.old ++ text.now) }
        ensures err { OnErr result (AddsPrefix (contents self.old) text.now (contents self.new)) }
        ensures taken { OnOk result (takes self.old self.new) }
        ensures failed { IfErr result (λ error. fails self.old error self.new) };

    /// Takes a character. After an error the sink holds what it held, and a prefix of the character's bytes.
    fn write_char(&mut self, c: char) -> Result<(), Self::Error>
        ensures ok { OnOk result (contents self.new ≡ contents self.old ++ encode_utf8_all (c ∷ [])) }
        ensures err { OnErr result (AddsPrefix (contents self.old) (encode_utf8_all (c ∷ [])) (contents self.new)) }
        ensures taken { OnOk result (takes self.old self.new) }
        ensures failed { IfErr result (λ error. fails self.old error self.new) };
}

impl TextSink for String {
    type Error = AllocError;

    ghost contents = { λ s. string_bytes s };

    ghost takes = { λ old new. (written : List ℕ) × (string_bytes new ≡ string_bytes old ++ written) };

    ghost fails = { λ old _ new. string_bytes new ≡ string_bytes old };

    fn write_str(&mut self, text: &str) -> Result<(), AllocError> {
        self.push_str(text)?;
        Ok(())
    }

    fn write_char(&mut self, c: char) -> Result<(), AllocError> {
        self.push(c)?;
        Ok(())
    }
}

/// A sink of text in UTF-16: it takes characters, and holds their units.
///
/// Its ghost functions say what those of `TextSink` do.
pub trait UnitSink {
    /// Why a character can't be taken.
    type Error: Drop;

    ghost contents: { Self → List ℕ };

    ghost takes: { Self → Self → Type 0 };

    ghost fails: { Self → Self.Error → Self → Type 0 };

    /// Takes units. After an error the sink holds what it held, and a prefix of the units.
    fn write_slice(&mut self, units: &[u16]) -> Result<(), Self::Error>
        ensures ok { OnOk result (contents self.new ≡ contents self.old ++ units.now) }
        ensures err { OnErr result (AddsPrefix (contents self.old) units.now (contents self.new)) }
        ensures taken { OnOk result (takes self.old self.new) }
        ensures failed { IfErr result (λ error. fails self.old error self.new) };

    /// Takes a character. After an error the sink holds what it held, and a prefix of the character's units.
    fn write_char(&mut self, c: char) -> Result<(), Self::Error>
        ensures ok { OnOk result (contents self.new ≡ contents self.old ++ encode_utf16 c) }
        ensures err { OnErr result (AddsPrefix (contents self.old) (encode_utf16 c) (contents self.new)) }
        ensures taken { OnOk result (takes self.old self.new) }
        ensures failed { IfErr result (λ error. fails self.old error self.new) };
}

impl UnitSink for Vec<u16> {
    type Error = AllocError;

    ghost contents = { λ v. v.items };

    ghost takes = { λ old new. (written : List ℕ) × (new.items ≡ old.items ++ written) };

    ghost fails = { λ old _ new. new.items ≡ old.items };

    fn write_slice(&mut self, units: &[u16]) -> Result<(), AllocError> {
        self.extend_from_slice(units)?;
        Ok(())
    }

    fn write_char(&mut self, c: char) -> Result<(), AllocError> {
        if c < '\u{10000}' {
            self.push(c as u16)?;
            return Ok(());
        }
        let mut units = [0; 2];
        let units = c.encode_utf16(&mut units);
        self.extend_from_slice(units)?;
        Ok(())
    }
}

/// Why a text can't be written in a normal form.
#[derive(Debug, Drop, Error)]
#[error_bound(E: Display)]
pub enum NormError<E> {
    /// The sink took no more.
    #[error("{0}")]
    Sink(E),
    /// Memory was refused.
    #[error("out of memory")]
    Memory,
}
