// Certificates: weights whose sums agree, and the ceiling that they set to every rewriting of the tables.
#![tactic(auto)]

pub mod certify;
mod weighing;
