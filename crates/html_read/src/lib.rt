// No code stands here: how strict HTML is read back is in specs/Read.antt, what is claimed of it in specs/Claims.antt, and why it holds in proofs/.

#![tactic(auto)]
