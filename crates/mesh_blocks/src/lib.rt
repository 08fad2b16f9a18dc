//! The run of a schedule with what it changes. Below each event that has changed a node it writes a
//! block, which is what a line `show` of that node writes in the state after the event; or the
//! changes of that block, which are the lines that went and those that came. Without these the text
//! is that of the run, and so are the states, the verdict and the last line. The page and the
//! program `mesh_watch` run schedules with it.
#![tactic(auto)]

mod auto;
mod below;
mod block;
mod changes;
mod draft;
mod driving;
mod event;
mod laws;
mod watched;

pub use below::Below;
pub use driving::run;
pub use laws::{
    a_watched_run_is_the_run, blocks_are_all_that_is_added, changes_lead_on,
    data_are_accounted_for, each_state_is_the_runs, same_lines_have_no_changes,
};
