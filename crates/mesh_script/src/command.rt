//! The commands of a schedule.
ghost use Rattle.std.specs.Prelude.{◌≡◌, IfSome, IfNone, Some, None};

use crate::shape::{Commands, Row, found};
use crate::words::is_word;
use mesh_base::MOST_EVENTS;
use mesh_grammar::{Command, Form};

impl Commands for Command {
    ghost use Rattle.mesh_grammar.specs.Commands as commands;

    ghost table = { commands.schedule };

    fn row_of(word: &[u8]) -> Option<Row<Command>> {
        match word {
            _ if is_word(word, b"node") => found(Command::Node, Form::Numbered),
            _ if is_word(word, b"link") => found(Command::Link, Form::Addresses),
            _ if is_word(word, b"cut") => found(Command::Cut, Form::Addresses),
            _ if is_word(word, b"data") => found(Command::Data, Form::Text),
            _ if is_word(word, b"turn") => found(Command::Turn, Form::Address),
            _ if is_word(word, b"send") => found(Command::Send, Form::Addresses),
            _ if is_word(word, b"ask") => found(Command::Ask, Form::Addresses),
            _ if is_word(word, b"deliver") => {
                found(Command::Deliver, Form::Number { most: u64::MAX })
            }
            _ if is_word(word, b"lose") => found(Command::Lose, Form::Number { most: u64::MAX }),
            _ if is_word(word, b"copy") => found(Command::Copy, Form::Number { most: u64::MAX }),
            _ if is_word(word, b"auto") => {
                found(Command::Auto, Form::Number { most: MOST_EVENTS })
            }
            _ if is_word(word, b"show") => found(Command::Show, Form::Address),
            _ if is_word(word, b"route") => found(Command::Route, Form::Addresses),
            _ if is_word(word, b"flight") => found(Command::Flight, Form::Bare),
            _ => None,
        }
    }
}
