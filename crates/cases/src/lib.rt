// No code: document 01's examples and a further session, as tables that the checker computes over the answer that `service` defines. proofs/Lib.antt lists them, and says how one is added.
#![tactic(auto)]
