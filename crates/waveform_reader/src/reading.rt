//! Reading a scenario from a text.

ghost use Rattle.std.specs.Prelude.{◌≡◌, ◌+◌, ◌≤◌, IfErr, IfOk, Ok};
ghost use Rattle.row_reader.specs.Rows.{rows_of};
ghost use Rattle.setting_rows.specs.Refusals.{Tells};
ghost use Rattle.waveform_reader.specs.Progress.{HasDraft};
ghost use Rattle.waveform_reader.specs.Refusals.{Refuses};
ghost use Rattle.waveform_reader.specs.Scenario.{body_fault, scenario_of};
ghost use Rattle.waveform_reader.specs.Sound.{IsSetup};

use crate::draft::Draft;
use crate::scenario::Scenario;
use ld_base::{Fields, NoMemory, Reason};
use setting_rows::{Ahead, Head, Known, Misread, read_head};
use std::alloc::Global;

/// Why a text was not read as a scenario.
#[derive(Clone, Copy, Debug, PartialEq, Eq)]
pub enum ReadScenario {
    /// Memory was refused.
    NoMemory,
    /// The first row, counted from 1, that breaks a rule, and the least rule that it breaks. Row 0 stands for the settings as a
    /// whole.
    Bad { row: u64, reason: Reason },
}

impl From<NoMemory> for ReadScenario {
    ghost use Rattle.std.specs.Prelude.{◌≡◌};
    ghost use Rattle.waveform_reader.specs.declared.reading.ReadScenario.TheVariants as answer;

    ghost from_gives = { λ _ e. e ≡ answer.NoMemory };

    fn from(_: NoMemory) -> ReadScenario {
        ReadScenario::NoMemory
    }
}

impl From<Misread> for ReadScenario {
    ghost use Rattle.std.specs.Prelude.{◌≡◌};
    ghost use Rattle.waveform_reader.specs.Refusals.{answer_of};

    ghost from_gives = { λ m e. e ≡ answer_of m };

    fn from(misread: Misread) -> ReadScenario {
        match misread {
            Misread::NoMemory => ReadScenario::NoMemory,
            Misread::Bad { row, reason } => ReadScenario::Bad { row, reason },
        }
    }
}

/// Reads a text as a scenario.
pub fn read(alloc: Global, text: &[u8]) -> Result<Scenario, ReadScenario>
    ensures read { IfOk result (λ scenario. scenario_of (rows_of text.now) ≡ Ok scenario) }
    ensures kept { IfOk result (λ scenario. IsSetup scenario) }
    ensures refused { IfErr result (Refuses (scenario_of (rows_of text.now))) }
{
    let mut rows = Ahead::new(alloc, text)?;
    let head = read_head(alloc, Known::Scenario, &mut rows)?;
    let Some(settings) = head.close(Known::Scenario) else {
        return Err(ReadScenario::Bad {
            row: 0,
            reason: Reason::Settings,
        });
    };
    let fields = settings.fields();
    match read_body(alloc, &head, &fields, &mut rows) {
        Ok(draft) => Ok(draft.finish(settings, head.end())),
        Err(misread) => Err(misread.into()),
    }
}

// Takes in the rows behind these settings.
fn read_body(
    alloc: Global,
    head: &Head,
    fields: &Fields,
    rows: &mut Ahead<'_>,
) -> Result<Draft, Misread>
    requires same { fields.now ≡ head.now.fields }
    requires drift { fields.now.drift ≤ 200 }
    ensures read { IfOk result (HasDraft head.now rows.old) }
    ensures refused { IfErr result (Tells (body_fault head.now (rows.old.taken + 1) rows.old.left)) }
{
    let mut draft = Draft::new(alloc);
    'records: while let Some(row) = rows.row() {
        if let Err(refusal) = draft.take(head, fields, row) {
            return Err(refusal.at(rows.number()));
        }
        rows.advance()?;
    }
    Ok(draft)
}
