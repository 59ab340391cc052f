// The moves that rewrite the held costs and keep every plan's total, the leasts that are moved, and how the end of an operation is judged.
#![tactic(auto)]

pub mod judging;
pub mod leasts;
pub mod moves;
pub mod sides;
