// From the bytes of an input, in parts of any size, to reply lines. The definition of what is printed on a whole input stands in specs/.
#![tactic(auto)]

pub mod splitting;
