//! The run of a schedule for a program in another language, as a static library: a page in a
//! browser, say. Its one call takes the bytes of a schedule, and writes the text of its run to the
//! caller's own memory; view/wasm compiles it for WebAssembly.
//!
//! No state outlives a call, and there are no threads. A caller is trusted to pass pointers to
//! memory of their type or length that nobody else uses during the call, and a `bool` that is 0 or
//! 1.
#![tactic(auto)]

mod exports;
mod running;
mod sheet;
mod variants;
