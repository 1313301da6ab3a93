// The station: it holds at most two circuits, one drawn and one intended, and reports what came of a call.
#![tactic(auto)]

pub mod report;
pub mod slot;
pub mod station;
