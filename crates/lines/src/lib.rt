// What a line can ask and why it can be declined; where the fields of each kind stand, and how fields are judged.
#![tactic(auto)]

pub mod field;
pub mod kind;
pub mod request;
pub mod verdict;
