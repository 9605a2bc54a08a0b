ghost use Rattle.std.specs.Prelude.{◌≡◌, ◌≢◌, None, Some, MatchResult};
ghost use Rattle.ld_base.specs.Settings.{setting_fault, AreInRange};

use crate::Words;
use crate::fields::{Fields, Key};
use std::marker::Model;

/// The bytes of a relay message.
pub const MESSAGE_BYTES: u32 = 36;

/// Ticks from one frame to the next.
pub const SLOT_TICKS: u32 = 125;

/// How many spacings a sample may be old while its set is judged.
const JUDGED_SPACINGS: u32 = 48;

/// Why settings are refused: the first of these that holds.
#[derive(Clone, Copy, Debug, PartialEq, Eq)]
pub enum BadSetting {
    /// A field lies outside its range, and of all such this is the first.
    Range(Key),
    /// A message takes so many ticks on its channels, which is more than the spacing of samples.
    ChannelTooSlow { needed: u32 },
    /// The age limit of samples is above this.
    LimitTooLong { most: u32 },
    /// Both header words are the same.
    SameWords,
}

/// The settings of a line, each in its range, and all of them fit for each other.
#[derive(Clone, Copy, Debug, PartialEq, Eq)]
pub struct Settings {
    fields: Fields,
}

impl Model for Settings {
    ghost use Rattle.std.specs.Prelude.{◌≡◌, None};
    ghost use Rattle.ld_base.specs.declared.fields.Fields.{Fields};

    ghost Value = { Fields };

    ghost use Rattle.ld_base.specs.Settings.{setting_fault};

    ghost view = { λ s. s.fields };

    ghost invariant = { λ s. setting_fault s.fields ≡ None };

    ghost inverse = { λ f. record { fields = f } };
}

impl Settings {
    /// Accepts the fields where nothing stands against them, and else names the first fault.
    #[tactic(auto, using(crate::proofs::Accepted::fault_of_misfit, std::proofs::lemmas::Bool::Decides::nat_tests))]
    pub fn new(fields: Fields) -> Result<Settings, BadSetting>
        ensures { MatchResult result (λ s. (s ≡ fields) × (setting_fault fields ≡ None)) (λ fault. setting_fault fields ≡ Some fault) }
    {
        if let Some(key) = fields.key_out_of_range() {
            return Err(BadSetting::Range(key));
        }
        let needed = MESSAGE_BYTES.div_ceil(u32::from(fields.channels)) * SLOT_TICKS;
        if needed > fields.spacing {
            return Err(BadSetting::ChannelTooSlow { needed });
        }
        let most = JUDGED_SPACINGS * fields.spacing;
        if fields.limit > most {
            return Err(BadSetting::LimitTooLong { most });
        }
        if fields.worda == fields.wordb {
            return Err(BadSetting::SameWords);
        }
        Ok(Settings { fields })
    }

    /// The fields that were handed in.
    pub fn fields(&self) -> Fields
        ensures same { result ≡ self.now }
        ensures accepted { setting_fault result ≡ None }
        ensures in_range { AreInRange result }
        ensures words { result.worda ≢ result.wordb }
    {
        self.fields
    }

    /// The header words.
    pub fn words(&self) -> Words
        ensures { result ≡ record { a = self.now.worda; b = self.now.wordb } }
    {
        let fields = self.fields();
        Words {
            a: fields.worda,
            b: fields.wordb,
        }
    }
}
