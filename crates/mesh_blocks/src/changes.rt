//! The lines that went from one text to another, and those that came.
ghost use Rattle.std.specs.Prelude.{◌≡◌, ◌<◌, ◌∷◌, List, ℕ, [], length, drop, map, IfOk, IfSome, MatchOption};
ghost use Rattle.mesh_io.specs.Cause.{HasCause};
ghost use Rattle.mesh_io.specs.Puts.{Puts};
ghost use Rattle.mesh_blocks.specs.Changes.{lines_of, stands_in, lines_before, lines_behind, Came, changes_to, left_by, changes, marked, changes_text};

use mesh_base::cut;
use mesh_io::{PutFault, Sink, put_all};

// The first line of a text, without its LF, and what comes after the LF. None if there is no LF.
fn next_line(text: &[u8]) -> Option<(&[u8], &[u8])>
    ensures lines { MatchOption result (lines_of text.now ≡ [])
        (λ p. lines_of text.now ≡ p.0.now ∷ lines_of p.1.now) }
    ensures shorter { IfSome result (λ p. length p.1.now < length text.now) }
{
    let (line, behind) = cut(text, b'\n');
    match behind {
        Some(rest) => Some((line, rest)),
        None => None,
    }
}

// Whether a text has this line.
fn stands_in(line: &[u8], text: &[u8]) -> bool
    ensures { result ≡ stands_in line.now (lines_of text.now) }
{
    let mut rest = text;
    'lines: while let Some((first, others)) = next_line(rest) {
        if first == line {
            return true;
        }
        rest = others;
    }
    false
}

// A line of a block without the two blanks that it begins with.
fn without_blanks(line: &[u8]) -> &[u8]
    ensures { result.now ≡ drop 2 line.now }
{
    if line.len() < 2 {
        return &[];
    }
    &line[2..]
}

// Writes a mark, and then a line of a block without those blanks.
fn put_marked<O: Sink>(mark: &[u8], line: &[u8], out: &mut O) -> Result<(), PutFault>
    ensures text { Puts (O.held out.old) (O.held out.new) (marked mark.now line.now) result }
    ensures cause { HasCause (O.faults out.old) (O.faults out.new) result }
{
    put_all(out, mark)?;
    put_all(out, without_blanks(line))?;
    put_all(out, b"\n")
}

// Writes the lines of a text before the first occurrence of this line as lines that came, and
// returns what comes after that occurrence.
fn put_came_before<'a, O: Sink>(
    line: &[u8],
    text: &'a [u8],
    out: &mut O,
) -> Result<&'a [u8], PutFault>
    ensures text { Puts (O.held out.old) (O.held out.new)
        (changes_text (map Came (lines_before line.now (lines_of text.now)))) result }
    ensures rest { IfOk result (λ rest.
        lines_of rest.now ≡ lines_behind line.now (lines_of text.now)) }
    ensures cause { HasCause (O.faults out.old) (O.faults out.new) result }
{
    let mut rest = text;
    'lines: while let Some((first, others)) = next_line(rest) {
        if first == line {
            return Ok(others);
        }
        put_marked(b"  + ", first, out)?;
        rest = others;
    }
    Ok(rest)
}

// Writes all lines of a text as lines that came.
fn put_came<O: Sink>(text: &[u8], out: &mut O) -> Result<(), PutFault>
    ensures text { Puts (O.held out.old) (O.held out.new)
        (changes_text (map Came (lines_of text.now))) result }
    ensures cause { HasCause (O.faults out.old) (O.faults out.new) result }
{
    let mut rest = text;
    'lines: while let Some((first, others)) = next_line(rest) {
        put_marked(b"  + ", first, out)?;
        rest = others;
    }
    Ok(())
}

// Writes the changes up to a line that was there before, and returns what is then left of `after`.
fn put_changes_to<'a, O: Sink>(
    line: &[u8],
    after: &'a [u8],
    out: &mut O,
) -> Result<&'a [u8], PutFault>
    ensures text { Puts (O.held out.old) (O.held out.new)
        (changes_text (changes_to line.now (lines_of after.now))) result }
    ensures left { IfOk result (λ rest.
        lines_of rest.now ≡ left_by line.now (lines_of after.now)) }
    ensures cause { HasCause (O.faults out.old) (O.faults out.new) result }
{
    if !stands_in(line, after) {
        put_marked(b"  - ", line, out)?;
        return Ok(after);
    }
    put_came_before(line, after, out)
}

/// Writes the lines that went from the text before to the text after, and those that came.
pub fn put_changes<O: Sink>(before: &[u8], after: &[u8], out: &mut O) -> Result<(), PutFault>
    ensures text { Puts (O.held out.old) (O.held out.new)
        (changes_text (changes (lines_of before.now) (lines_of after.now))) result }
    ensures cause { HasCause (O.faults out.old) (O.faults out.new) result }
{
    let mut rest = before;
    let mut left = after;
    'lines: while let Some((line, others)) = next_line(rest) {
        left = put_changes_to(line, left, out)?;
        rest = others;
    }
    put_came(left, out)
}
