//! The router for programs in other languages, as a static library: an exported function for each
//! call, over a handle in the caller's own memory. include/aodv.h has its declarations.
//!
//! Each function takes anything that its types allow: a handle that holds nothing, addresses of no
//! node, and any bytes. It answers `DONE` or the number of a refusal, except `aodv_version` and
//! `aodv_free`. The only state is what handles hold, and no thread is started. A caller is trusted
//! in this: each pointer leads to memory of its type or length that nobody else uses during the
//! call, and a handle began as zeros and has been written by these functions only.
#![tactic(auto)]

mod codes;
mod exports;
mod handle;
mod loose;
mod outcome;
mod reads;

pub use handle::Handle;
pub use outcome::{Addrs, Outcome, Row};
