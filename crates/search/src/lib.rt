// The walk over plans: the best plan of a study that a budget of tries lets it find.
#![tactic(auto)]

pub mod answer;
pub mod walk;
