// No code stands here: reading bytes back from the left is in specs/Reader.antt, and what holds of every such reading in proofs/Laws.antt.

#![tactic(auto)]
