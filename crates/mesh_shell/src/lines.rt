//! The one loop over the lines of an input.
ghost use Rattle.std.specs.Prelude.{◌≡◌, ◌≤◌, ◌+◌, [], true, false, IfNone, IfSome};
ghost use Rattle.mesh_io.specs.Decisions.{decides};
ghost use Rattle.mesh_shell.specs.Runs.{IsRan};

use crate::limit::Limit;
use crate::reader::LineReader;
use crate::runner::Runner;
use mesh_io::LineError;

// Hands on what is gathered, if the next answer needs a read. If it doesn't, nothing is awaited,
// and nothing changes.
#[inline]
fn hand_on<R: Runner, L: LineReader>(runner: &mut R, lines: &L) -> Option<R::Answer>
    ensures goes { IfNone result (R.leads runner.old [] runner.new) }
    ensures handed_on { decides (L.limits lines.now) (L.given lines.now)
        (L.ended lines.now) (L.pending lines.now) ≡ false
        → IfNone result (R.has_handed_on runner.new) }
    ensures same { decides (L.limits lines.now) (L.given lines.now)
        (L.ended lines.now) (L.pending lines.now) ≡ true → runner.new ≡ runner.old }
    ensures breaks { IfSome result (λ answer. R.breaks runner.old runner.new answer) }
{
    if lines.is_decided() {
        return None;
    }
    runner.wait()
}

/// Does the lines of a source from the first on, up to the end of the input or the first line that
/// ends the run. What is gathered is handed on before each read, so that a line's text is out
/// before the next line is awaited.
pub fn run_lines<R: Runner, L: LineReader>(runner: &mut R, lines: &mut L) -> R::Answer
    requires short { (L.limits lines.old).line ≤ R.longest }
    requires room { R.has_room runner.old ((L.limits lines.old).input + 1) }
    requires pending { L.pending lines.old ≡ [] }
    requires given { L.given lines.old ≡ 0 }
    ensures same { L.name lines.new ≡ L.name lines.old }
    ensures ran { IsRan R.Runner L.LineReader lines.old lines.new runner.old runner.new result }
{
    'lines: loop {
        if let Some(answer) = hand_on(runner, lines) {
            return answer;
        }
        match lines.advance(&*runner) {
            Ok(true) => match runner.line(lines.line()) {
                None => {}
                Some(answer) => return answer,
            },
            Ok(false) => return runner.end(),
            Err(LineError::ReadFault) => return runner.cut(),
            Err(LineError::TooLong) => return runner.past(Limit::Line),
            Err(LineError::TooMuch) => return runner.past(Limit::Input),
        }
    }
}
