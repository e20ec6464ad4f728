// Demand 3 by example: the statements stand in specs/, their proof in proofs/.
