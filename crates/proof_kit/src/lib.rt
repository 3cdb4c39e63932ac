// What the proofs by hand share: no function.

#![tactic(auto)]
