// The bodies of the two files: the devices of a drawn circuit and the gates of an intended one.
#![tactic(auto)]

pub mod devices;
pub mod gates;
