//! Nodes with places on a grid: which places are within reach of each other, the lines that put a
//! node at a place, the links that follow from places, and the text of a run with places. A program
//! uses the places and the reader of their lines; the rest is definitions for its contracts, with
//! their laws.
#![tactic(auto)]

mod laws;
mod line;
mod link;
mod place;

pub use laws::{
    a_place_line_is_written_as_it_stands, data_are_accounted_for, each_state_is_of_events,
    events_are_of_the_mesh, lines_are_loop_free, links_follow_places,
    other_lines_are_as_in_a_schedule, runs_with_places_are_loop_free, states_are_loop_free,
    worlds_are_of_events,
};
pub use line::{Placing, placing_of};
pub use place::{GREATEST_PLACE, Place, Places};
