//! What a process does depends only on what it can see: equal reach gives equal steps.
#![tactic(auto)]

mod laws;

pub use laws::frame;
