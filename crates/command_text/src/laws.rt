//! Laws of commands and their lines.
ghost use Rattle.command_text.specs.Laws.{PrintedIsRead, OneFaultPlace};

/// Reading what was printed of a command gives this command.
pub fn printed_commands_are_read()
    ensures { PrintedIsRead }
{}

/// No line has two fault places.
pub fn lines_have_one_fault_place()
    ensures { OneFaultPlace }
{}
