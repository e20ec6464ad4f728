// Laws of the words that the rules are written in: proofs/.
