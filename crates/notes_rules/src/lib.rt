// No code stands here: what notes stand for is in specs/Notes.antt, what is left of them in specs/Without.antt, and the laws of both in proofs/.

#![tactic(auto)]
