// The tables of a study and their rules, on numbers only: the state block, and when a block is well formed.
#![tactic(auto)]

pub mod block;
pub mod choices;
pub mod held_study;
pub mod orders;
pub mod place_limits;
pub mod places;
pub mod well_formed;
