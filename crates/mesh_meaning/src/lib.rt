//! What the emulator's events, copies and answers mean in a mesh: for an event, a copy in flight or
//! an answer of the program, that of the mesh's definitions, with messages over nodes. This crate
//! has only definitions; the crates that make a world step, and those that print it, cite them.
#![tactic(auto)]
