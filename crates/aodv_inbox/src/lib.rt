//! The queue of a node: the data that it is given and the packets that it hears, first in, first
//! out. No item is ever pushed out. Room is made before an item comes, so that adding it takes no
//! memory.
#![tactic(auto)]

mod inbox;

pub use inbox::Inbox;
