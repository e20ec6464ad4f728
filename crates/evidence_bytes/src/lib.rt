// Demand 3 of layers that are lent as bytes: the statements stand in specs/, their proofs in proofs/.
