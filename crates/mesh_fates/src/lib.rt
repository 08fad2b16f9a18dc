//! What a random channel decides of copies: which are lost or doubled, and when those not lost are
//! due.
#![tactic(auto)]

mod channel;
mod decided;
mod due;
mod fate;
mod laws;
mod rates;

pub use channel::{Channel, GREATEST_TICK};
pub use due::Due;
pub use laws::{
    casts_take_words, deciding_keeps_order, doubling_keeps_order, fates_take_words,
    lossless_leaves_nothing, prompt_is_due_next,
};
pub use rates::{GREATEST_DELAY, GREATEST_RATE, Rates};
