// Document 02, 'Saving a study': the study that a block holds, written as the line that loads it.
#![tactic(auto)]

pub mod save;
pub mod write;
