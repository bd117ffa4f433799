//! Laws of talks, each the contract of a function that does nothing.
ghost use Rattle.mx_debug.specs.Told.{ConsoleIsTold, NoPacketChangesTheRun, WantChangesNoOther};

/// All that is told of the console together is the console of the run as far as it was told, whatever is heard.
pub fn console_is_told()
    ensures { ConsoleIsTold }
{}

/// What is looked at is a state of the one run, whatever is heard.
pub fn no_packet_changes_the_run()
    ensures { NoPacketChangesTheRun }
{}

/// Whether memory is wanting makes no difference but where one boots again.
pub fn want_changes_no_other()
    ensures { WantChangesNoOther }
{}
