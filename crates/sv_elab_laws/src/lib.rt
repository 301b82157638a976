//! A law of elaboration, over all forms of expressions: what it types as a number has in a run the width and the sign of that type.
//!
//! What it says stands in `specs/Fits.antt`, the law itself in `proofs/Law.antt`. The crate has no code.
#![tactic(auto)]
