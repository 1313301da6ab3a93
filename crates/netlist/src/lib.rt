// The circuit layer: the records of a text gathered into a netlist.
#![tactic(auto)]

pub mod netlist;
pub mod reading;
