//! What every crate of the router and the emulator shares: addresses and the mesh that they form,
//! sets of nodes, lists of bytes and the memory for them, events and what they do.
//!
//! Node `i` of a mesh is the `i`-th of its addresses in ascending order, counted from 0. All counts
//! are of nodes or bytes, but for `MOST_EVENTS`, which counts events.
#![tactic(auto)]

mod addr;
mod bytes;
mod events;
mod few;
mod limits;
mod line_buf;
mod mesh;
mod octets;
mod set;
mod text;

pub use addr::Addr;
pub use bytes::{Bytes, NoMemory, Room};
pub use events::{
    Air, Cast, Done, Effect, Event, Flying, FlyingView, Full, Item, Kind, Took, Variant,
};
pub use few::{InlineBytes, ShortText};
pub use limits::{
    ADDRESS_WIDTH, LINE_CAPACITY, LONGEST_DATUM, LONGEST_INPUT, LONGEST_LINE, LONGEST_PACKET,
    MOST_EVENTS, MOST_NODES, NUMBER_WIDTH,
};
pub use line_buf::{LineBuf, push_array, push_text};
pub use mesh::{Mesh, MeshError};
pub use octets::{dotted, write_dotted};
pub use set::NodeSet;
pub use text::{
    Packet, are_equal, cut, four_digits, number_up_to, push_decimal, push_number, short,
    short_decimal,
};
