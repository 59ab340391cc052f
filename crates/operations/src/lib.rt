// The operations that change the totals of a study's plans, each on a lent block: a declined one leaves the block as it was. And the order in which its trains are tried.
#![tactic(auto)]

pub mod add;
pub mod given_study;
pub mod lent_study;
pub mod load;
pub mod load_numbers;
pub mod set_order;
