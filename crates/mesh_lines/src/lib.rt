//! The forms of the lines of a printed text: what each word of a line may be, and which lines can
//! be below which. `event_by` and `other_by` return what may be below a line without two spaces
//! before it; `is_of_cast` and its like recognize those lines below it that say nothing about
//! copies.
//!
//! A line's words are handed on as the text after its first word and a space, `None` if there is no
//! space, and are cut from that text one by one. Only `SharedPacket::new` takes memory.
#![tactic(auto)]

mod below;
mod form;
mod last;
mod packet;
mod quiet;
mod words;

pub use below::{Below, GREATEST_PLACE, event_by, other_by};
pub use form::{Field, are, are_addresses, is_hex};
pub use packet::SharedPacket;
pub use quiet::{MOST_HOPS, is_idle, is_of_cast, is_of_loss, is_of_node, is_of_route, is_taken};
pub use words::{
    address, copy_words, cut, ends, four, is, is_address, is_link, number, three, two,
};
