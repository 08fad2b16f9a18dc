//! The commands of a router's script.
ghost use Rattle.std.specs.Prelude.{◌≡◌, IfSome, IfNone, Some, None};

use crate::limits::{GREATEST_PORT, MOST_AT_ONCE};
use crate::shape::{Commands, Row, found};
use crate::words::is_word;
use mesh_grammar::Form;

/// A command, by the first word of its line.
#[derive(Clone, Copy, PartialEq, Eq)]
pub enum NodeCommand {
    /// `self`.
    Own,
    Peer,
    Up,
    Down,
    Data,
    Poll,
    Turn,
    Send,
    Ask,
    Show,
}

impl Commands for NodeCommand {
    ghost use Rattle.mesh_script.specs.NodeCommands as commands;

    ghost table = { commands.router_script };

    fn row_of(word: &[u8]) -> Option<Row<NodeCommand>> {
        match word {
            _ if is_word(word, b"self") => found(NodeCommand::Own, Form::Numbered),
            _ if is_word(word, b"peer") => found(
                NodeCommand::Peer,
                Form::AddressNumber {
                    most: GREATEST_PORT,
                },
            ),
            _ if is_word(word, b"up") => found(NodeCommand::Up, Form::Address),
            _ if is_word(word, b"down") => found(NodeCommand::Down, Form::Address),
            _ if is_word(word, b"data") => found(NodeCommand::Data, Form::AddressText),
            _ if is_word(word, b"poll") => {
                found(NodeCommand::Poll, Form::Number { most: MOST_AT_ONCE })
            }
            _ if is_word(word, b"turn") => {
                found(NodeCommand::Turn, Form::Number { most: MOST_AT_ONCE })
            }
            _ if is_word(word, b"send") => found(NodeCommand::Send, Form::Address),
            _ if is_word(word, b"ask") => found(NodeCommand::Ask, Form::Address),
            _ if is_word(word, b"show") => found(NodeCommand::Show, Form::Bare),
            _ => None,
        }
    }
}
