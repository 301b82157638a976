//! What elaboration makes of texts, computed from their trees: some 1,300 claims, which the checker finds by computing the definitions of `sv_names`.
//!
//! They stand in a crate of their own, `proofs/` of this one: it has no code, and what stands in `sv_names` is proved again with its must-fail edits.
#![tactic(auto)]
