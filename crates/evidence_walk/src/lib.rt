// The evidence guarantee of a walk, chunk by chunk: its statement stands in specs/, its proof in proofs/.
