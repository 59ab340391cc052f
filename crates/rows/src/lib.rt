// What the choices of later trains come to, in rows of sums, and the table of a study that they are summed from.
#![tactic(auto)]

mod links;
pub mod listing;
pub mod ordered_study;
pub mod sums;
pub mod table;
