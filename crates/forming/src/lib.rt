// Forming the states of a drawn cell over any algebra of signals. That its values read as bits is asked in clauses, as `boolean`,
// since a call of the signal interface promises it and no law across the two interfaces does; and as `hand` that signs are in hand, a
// fact of a table and of an algebra.
#![tactic(auto)]

mod component;
mod nets;
pub mod signs;
pub mod states;
mod tables;
pub mod work;

// The signs of a work table: the states of all nets, and each of the two tables of a component.
pub const STATE_SIGNS: usize = 256;

pub const TABLE_SIGNS: usize = 640;
