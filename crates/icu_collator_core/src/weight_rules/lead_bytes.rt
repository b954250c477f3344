//! What the rules on weights ask of lead bytes.

use crate::tables::CollationSpecialPrimaries;

/// What the rules on weights ask of lead bytes.
pub trait LeadBytes {
    ghost use Rattle.std.specs.Prelude.{◌≡◌};
    ghost use Rattle.icu_collator_core.specs.Weights.{Weights};

    /// What is said of leads, as weights that may say nothing else.
    ghost weights: { Self → Weights };

    /// Whether a lead byte is left out of a key after a primary with the same lead.
    fn is_compressible_lead(&self, lead: u8) -> bool
        ensures { result ≡ (weights self.now).is_compressible lead };

    /// The lead byte of numbers.
    fn numeric_lead(&self) -> u8
        ensures { result ≡ (weights self.now).numeric_lead };
}

/// Which lead bytes are compressible, and that of numbers.
#[derive(Drop)]
pub struct Leads {
    compressible: [bool; 256],
    numeric: u8,
}

impl Leads {
    ghost use Rattle.std.specs.Prelude.{◌≡◌, ◌==◌, ◌||◌, ℕ};
    ghost use Rattle.icu_collator_core.specs.PlainLeads.{plain_leads};

    /// Leads with this one for numbers. Of leads FE (hex) alone is compressible.
    pub fn new(numeric: u8) -> Leads
        ensures compressible { (lead : ℕ) → (plain_leads result).is_compressible lead ≡ (lead == 0xfe) }
        ensures numeric { (plain_leads result).numeric_lead ≡ numeric }
    {
        let mut compressible = [false; 256];
        compressible[0xfe] = true;
        Leads {
            compressible,
            numeric,
        }
    }

    /// Makes a lead compressible. The others stay as they are.
    #[tactic(auto, using(crate::proofs::weights::LeadLemmas::one_more_set))]
    pub fn set_compressible(&mut self, lead: u8)
        ensures compressible { (other : ℕ) → (plain_leads self.new).is_compressible other ≡ ((other == lead) || (plain_leads self.old).is_compressible other) }
        ensures numeric { (plain_leads self.new).numeric_lead ≡ (plain_leads self.old).numeric_lead }
    {
        self.compressible[lead as usize] = true;
    }
}

impl LeadBytes for Leads {
    ghost use Rattle.icu_collator_core.specs.PlainLeads.{plain_leads};

    ghost weights = { λ leads. plain_leads leads };

    fn is_compressible_lead(&self, lead: u8) -> bool {
        self.compressible[lead as usize]
    }

    fn numeric_lead(&self) -> u8 {
        self.numeric
    }
}

impl LeadBytes for CollationSpecialPrimaries<'_> {
    ghost use Rattle.icu_collator_core.specs.WeightFaults.{leads_of};

    ghost weights = { λ special. leads_of special };

    fn is_compressible_lead(&self, lead: u8) -> bool {
        self.is_compressible(lead)
    }

    fn numeric_lead(&self) -> u8 {
        self.numeric_primary
    }
}
