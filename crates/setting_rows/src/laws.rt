//! The law of settings that are written, the contract of a function that does nothing.

ghost use Rattle.setting_rows.specs.Written.{AreReadBack};
ghost use Rattle.ld_base.specs.declared.fields.Fields.{Fields};
ghost use Rattle.ld_base.specs.Settings.{setting_fault};
ghost use Rattle.std.specs.Prelude.{◌≡◌, None};

/// Settings are read back from the rows that write them, whatever records stand behind: no row breaks a rule, they are the
/// settings that were written, and nothing but a scenario's end is missing.
pub fn written_settings_are_read()
    ensures { (f : Fields) → setting_fault f ≡ None → AreReadBack f }
{}
