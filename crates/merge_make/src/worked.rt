//! A script as it would be written. The function does nothing: its contract says what is computed.
ghost use Rattle.std.specs.Prelude.{◌≡◌};
ghost use Rattle.merge_script.specs.Lines.{lines_of};
ghost use Rattle.merge_model.specs.Script.Reading.{events_of};
ghost use Rattle.merge_make.specs.Script.{script};
ghost use Rattle.merge_make.specs.Worked.{seven_customers};

/// The script of seven customers has the events of a text.
pub fn script_of_seven_customers()
    ensures { script 7 ≡ events_of (lines_of seven_customers) }
{}
