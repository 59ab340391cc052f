// Lines as digits: bytes and their sum, fields, runs of fields, and frames.
#![tactic(auto)]

pub mod byte_sum;
pub mod digits;
pub mod fields;
pub mod frame;
pub mod runs;
