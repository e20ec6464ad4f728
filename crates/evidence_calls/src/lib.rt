// Demand 3 of the exported calls: its statement stands in specs/, its proof in proofs/. The crate evidence_host holds
// its hypotheses to the calls.
