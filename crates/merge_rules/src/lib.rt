// No code stands here: what the merge of two option lists gives is in specs/Merge.antt, and the laws of it in proofs/.

#![tactic(auto)]
