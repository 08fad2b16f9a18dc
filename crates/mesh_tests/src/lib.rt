//! Tests of the libraries, by their public calls: packets that other implementations sent, worked
//! rows, lines that are refused, and each call that can run out of memory, with ample memory. They
//! are in a crate of their own, since a crate that has tests is proved once more with them. Runs of
//! whole schedules, whose source and sink don't fail, are in checks/cases: there they need no
//! proof.
#![tactic(auto)]

#[cfg(test)]
mod asked;
#[cfg(test)]
mod bytes;
#[cfg(test)]
mod checkpoints;
#[cfg(test)]
mod entry;
#[cfg(test)]
mod grid;
#[cfg(test)]
mod handlers;
#[cfg(test)]
mod inbox;
#[cfg(test)]
mod io;
#[cfg(test)]
mod lines;
#[cfg(test)]
mod link;
#[cfg(test)]
mod make;
#[cfg(test)]
mod node;
#[cfg(test)]
mod outside;
#[cfg(test)]
mod packets;
#[cfg(test)]
mod peers;
#[cfg(test)]
mod points;
#[cfg(test)]
mod report;
#[cfg(test)]
mod restore;
#[cfg(test)]
mod router_faults;
#[cfg(test)]
mod run_faults;
#[cfg(test)]
mod script;
#[cfg(test)]
mod steps;
#[cfg(test)]
mod table;
#[cfg(test)]
mod trail;
#[cfg(test)]
mod waiting;
#[cfg(test)]
mod world;
