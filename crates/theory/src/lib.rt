// No code: finite sums, tests and turns over a range, and lists given by their entries. The definitions stand in specs/, their laws in proofs/.
#![tactic(auto)]
