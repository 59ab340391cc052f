// Document 02, change 14: lines over train radio, in the second form, and the answer to a line in either form.
#![tactic(auto)]

pub mod answer;
pub mod form;
