//! What a line says by itself, and the faults that it has by itself, by the table of its script's
//! commands.
ghost use Rattle.std.specs.Prelude.{◌≡◌, List, IfSome, IfNone, Some, None};
ghost use Rattle.mesh_grammar.specs.Scripts as scripts;
ghost use Rattle.mesh_grammar.specs.Scripts.{row_in, shape_by};
ghost use Rattle.mesh_script.specs.Shapes.{row_with, seen_shape};

use crate::forms::{Arguments, arguments_of};
use crate::words::{SpannedAddr, is_blank, next_at, span_at};
use mesh_base::{Mesh, cut};
use mesh_grammar::{Form, LineFault};

/// A command with its arguments.
#[derive(Drop)]
pub struct Shape<'a, C> {
    pub command: C,
    pub arguments: Arguments<'a, SpannedAddr>,
}

/// A command and the form of its arguments.
#[derive(Clone, Copy)]
pub struct Row<C> {
    pub command: C,
    pub form: Form,
}

/// The commands of a kind of script.
pub trait Commands: Copy {
    /// The table of the commands: the word that denotes each, and the form of its arguments.
    ghost table: { List (scripts.Row Self) };

    /// The row that a word denotes.
    fn row_of(word: &[u8]) -> Option<Row<Self>>
        ensures some { IfSome result (λ r. row_in table word.now ≡ Some (row_with word.now r)) }
        ensures none { IfNone result (row_in table word.now ≡ None) };
}

/// The row of a command.
pub fn found<C>(command: C, form: Form) -> Option<Row<C>>
    ensures { result ≡ Some (record { command = command; form = form }) }
{
    Some(Row { command, form })
}

/// What a line says by itself, or its first fault. A blank line says nothing.
#[tactic(auto, unfolding(mesh_grammar::specs::Scripts::shape_by))]
pub fn shape_of<'a, C: Commands>(
    mesh: &Mesh,
    line: &'a [u8],
) -> Result<Option<Shape<'a, C>>, LineFault>
    ensures { seen_shape result ≡ shape_by C.table line.now }
{
    if is_blank(line) {
        return Ok(None);
    }
    let (word, arguments) = cut(line, b' ');
    // A slice has fewer than 2^63 bytes: no index into it overflows.
    let _length = line.len();
    let Some(row) = C::row_of(word) else {
        return Err(LineFault::Word(span_at(0, word)));
    };
    let arguments = arguments_of(mesh, row.form, next_at(0, word), arguments)?;
    Ok(Some(Shape {
        command: row.command,
        arguments,
    }))
}
