// No code stands here: how the printing order goes with the document's text is in specs/Unticked.antt, and its laws in proofs/OrderLaws.antt.

#![tactic(auto)]
