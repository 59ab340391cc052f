// No code: what document 01 claims of every list of calls stands in specs/, and proofs/Demand.antt proves it of the answers that `service` gives.
#![tactic(auto)]
