// Parts of a bag: what is read at the front of some of its bytes, and the fault where it cannot be.
#![tactic(auto)]

pub mod span;
