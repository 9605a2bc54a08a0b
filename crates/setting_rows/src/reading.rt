//! Reading the settings in front of a text's records.

ghost use Rattle.std.specs.Prelude.{◌≡◌, ◌+◌, IfErr, IfOk};
ghost use Rattle.row_reader.specs.Faults.{first_fault};
ghost use Rattle.setting_rows.specs.Ahead.{HasHead};
ghost use Rattle.setting_rows.specs.Head.{head_rows, heading_faults, no_settings};
ghost use Rattle.setting_rows.specs.Refusals.{Tells};

use crate::ahead::Ahead;
use crate::head::Head;
use crate::refusal::Misread;
use crate::setting::Known;
use std::alloc::Global;

/// Takes in the rows up to the first that is neither a `set` nor a remark, in a text in which these settings are known.
pub fn read_head(alloc: Global, known: Known, rows: &mut Ahead<'_>) -> Result<Head, Misread>
    ensures read { IfOk result (HasHead known rows.old rows.new) }
    ensures refused { IfErr result (Tells (first_fault (rows.old.taken + 1) (heading_faults known no_settings (head_rows rows.old.left)))) }
{
    let mut head = Head::new(alloc);
    'headings: while let Some(row) = rows.heading() {
        if let Err(refusal) = head.take(known, row) {
            return Err(refusal.at(rows.number()));
        }
        rows.advance()?;
    }
    Ok(head)
}
