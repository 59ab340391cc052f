// No code: proofs/ shows how many choices a search tries: at most as many as the sizes give, and in the dearest study of these sizes all of them.
#![tactic(auto)]
