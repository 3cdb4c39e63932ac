// No code stands here: the rules of rendering the joined form are in specs/Render.antt, what is claimed of both forms in specs/Claims.antt, and why it
// holds in proofs/.

#![tactic(auto)]
