//! A mesh of AODV nodes as definitions: its worlds, its events and their steps, and the laws of all
//! its runs. No destination's valid routes ever form a cycle, and each datum is accounted for. The
//! emulator's code is in other crates, whose contracts say that it does what is defined here.
#![tactic(auto)]

pub mod laws;
