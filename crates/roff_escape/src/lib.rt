// What `Doc::render_roff` writes with (src/buffer/manpage/escape.rs, monoid.rs and roff.rs).

#![tactic(auto)]

pub mod escape;
pub mod monoid;
pub mod roff;
