//! Laws of the definitions. Each function has an empty body and a contract that states a law.
ghost use Rattle.mesh_grammar.specs.declared.command.Command.{Command};
ghost use Rattle.mesh_grammar.specs.Laws.{WrittenLineIsRead, ReadLineIsWritten};

/// A command and its arguments that are written as a line are read back from it as they were.
pub fn a_written_line_is_read()
    ensures { WrittenLineIsRead Command }
{}

/// A line that is read is the text of the command and the arguments that were read from it, except
/// that it may give an address without its number, if that is 1.
pub fn a_read_line_is_written()
    ensures { ReadLineIsWritten Command }
{}
