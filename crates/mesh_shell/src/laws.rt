//! Laws of the definitions. Each function has an empty body and a contract that states a law.
ghost use Rattle.std.specs.Prelude.{◌≡◌, []};
ghost use Rattle.mesh_io.specs.declared.limits.Limits.{Limits};
ghost use Rattle.mesh_shell.specs.Pieces.{pieces_within};
ghost use Rattle.mesh_shell.specs.Laws.{LinesAreTheText};

/// An empty input has no line, whatever the limits.
pub fn an_empty_text_has_no_line()
    ensures { (most : Limits) → pieces_within most [] ≡ [] }
{}

/// If no limit is passed, the lines of an input, each with an LF after it, are the input, except
/// that its last line may lack the LF.
pub fn lines_are_the_text()
    ensures { LinesAreTheText }
{}
