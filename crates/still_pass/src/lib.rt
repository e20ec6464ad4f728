// What the passes of mask, apply and hold share: what they leave in specs/, the laws of that in proofs/.
#![tactic(auto)]
