//! What the machine means: its states, the events that lead from one to the next, and what holds of
//! every list of events.
//!
//! Nothing here runs. The definitions stand in `specs/`, over those of `view_meaning`; the laws are
//! the contracts of functions that do nothing.
#![tactic(auto)]

mod claim;
mod laws;

pub use claim::Claim;
pub use laws::{
    contents_stay, held_are_values, installs_settle, one_claim_a_load, runs_stay_good,
    starts_are_good, steps_stay_good, twice_needs_load, unsettled_have_ready,
};
