// The call: 17, 16, and then the line. The definition of the answer stands in specs/.
#![tactic(auto)]

pub mod call;
