// No code: a study with its trains in an order and its pairs in a list stands in specs/, and proofs/ shows that it has the same plans, each with the same total.
#![tactic(auto)]
