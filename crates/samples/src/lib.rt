// No code stands here: 01's samples are in specs/Samples.antt, tabstops in specs/Tabstops.antt, and the proofs that the rules give them
// in proofs/SamplesHold.antt and proofs/TabstopsHold.antt.

#![tactic(auto)]
