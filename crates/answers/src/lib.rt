// That a number is never answered: the statement stands in specs/, its proof in proofs/. The crate answers_host holds
// it to the exported calls.
