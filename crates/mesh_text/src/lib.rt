//! What a schedule and the text of its run are: whether a line is allowed in a state, what its
//! events do, and the text and verdict of an input's bytes. These are definitions for the contracts
//! of other crates, with their laws; of these a program has only `Verdict`.
#![tactic(auto)]

mod laws;
mod verdict;

pub use laws::{
    a_line_has_few_events, a_printed_line_parses, a_read_line_is_in_range,
    a_read_line_is_written_as_it_was, a_refused_event_stands_in_its_line, a_run_goes_on,
    a_run_is_a_run_of_events, a_run_keeps_the_invariant, all_events_count,
    an_auto_line_has_four_bytes, an_event_keeps_the_account, data_are_accounted_for,
    data_are_named, each_datum_is_accounted_for, each_datum_is_named, events_are_of_the_mesh,
    every_state_is_loop_free, every_state_is_of_the_run, runs_are_loop_free, steps_are_events,
    the_last_line_is_of_the_last_state, the_sums_are_in_order,
};
pub use verdict::Verdict;
