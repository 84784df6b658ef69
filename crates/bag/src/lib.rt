// Bags of letters: read whole, or refused by exactly one fault.
#![tactic(auto)]

pub mod checked;
pub mod offsets;
