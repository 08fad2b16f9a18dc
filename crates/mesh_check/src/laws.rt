//! What holds for the definitions: `check` is exact, since a text has one right answer.
ghost use Rattle.mesh_check.specs.Laws.{HasRightAnswer, HasOneAnswer};

/// Each text has a right answer: it is refused at a line, or its tables are sound, or one of their
/// edges is the first that fails.
pub fn a_text_has_a_right_answer()
    ensures { HasRightAnswer }
{}

/// No text has two right answers, or two right lines.
pub fn a_text_has_one_answer()
    ensures { HasOneAnswer }
{}
