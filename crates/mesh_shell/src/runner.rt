//! What is done with the lines of an input, independently of what is written and where.
ghost use Rattle.std.specs.Prelude.{◌+◌, ◌≤◌, ℕ, List, [], ◌∷◌, ◌++◌, length, IfNone, IfSome};
ghost use Rattle.mesh_shell.specs.Pieces.{Piece, Whole};
ghost use Rattle.mesh_shell.specs.Scripts.{size_of_line, size_of_pieces, piece_past};

use crate::limit::Limit;

/// What is done with the lines of an input, one after another, independently of what is written and
/// where.
pub trait Runner {
    /// What a run answers.
    type Answer: Copy;

    /// These lines were all done, which led from the first state to the second, and the run goes
    /// on.
    ghost leads: { Self → List Piece → Self → Type 0 };

    /// The run has ended at this line.
    ghost stops: { Self → Piece → Self → Self.Answer → Type 0 };

    /// The run has ended at the end of the input.
    ghost ends: { Self → Self → Self.Answer → Type 0 };

    /// The run has ended before a read, with no line to do.
    ghost breaks: { Self → Self → Self.Answer → Type 0 };

    /// The run has ended because a read failed.
    ghost cuts: { Self → Self → Self.Answer → Type 0 };

    /// All that is to be handed on before a read has been handed on.
    ghost has_handed_on: { Self → Type 0 };

    /// Lines of this many bytes, counted as `size_of_line` does, can be done from this state on.
    ghost has_room: { Self → ℕ → Type 0 };

    /// The length in bytes of the longest line that it can do.
    ghost longest: { ℕ };

    /// Hands on what is gathered, before a read. An answer ends the run.
    fn wait(&mut self) -> Option<Self::Answer>
        ensures goes { IfNone result (leads self.old [] self.new) }
        ensures handed_on { IfNone result (has_handed_on self.new) }
        ensures breaks { IfSome result (λ answer. breaks self.old self.new answer) };

    /// Does one line, without its LF. An answer ends the run.
    fn line(&mut self, line: &[u8]) -> Option<Self::Answer>
        requires short { length line.now ≤ longest }
        requires room { has_room self.old (size_of_line line.now) }
        ensures goes { IfNone result (leads self.old (Whole line.now ∷ []) self.new) }
        ensures stops { IfSome result
            (λ answer. stops self.old (Whole line.now) self.new answer) };

    /// Ends the run at a line that goes past a limit.
    fn past(&mut self, limit: Limit) -> Self::Answer
        requires { has_room self.old 1 }
        ensures { stops self.old (piece_past limit) self.new result };

    /// Ends the run at the end of the input.
    fn end(&mut self) -> Self::Answer
        ensures { ends self.old self.new result };

    /// Ends the run because a read failed.
    fn cut(&mut self) -> Self::Answer
        ensures { cuts self.old self.new result };

    /// Without lines a state leads to itself.
    ghost stays: { (a : Self) → leads a [] a };

    /// If lines lead from a to b, and others from b to c, then all of them lead from a to c.
    ghost joins: { (a b c : Self) (lines others : List Piece)
        → leads a lines b → leads b others c → leads a (lines ++ others) c };

    /// After lines there is as much room as they leave.
    ghost leaves: { (a b : Self) (lines : List Piece) (all few : ℕ) → has_room a all
        → leads a lines b → size_of_pieces lines + few ≤ all → has_room b few };
}
