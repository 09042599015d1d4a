//! What the two-lists law knows of a kernel's rules. It has no code: `specs` is what other crates cite.
#![tactic(auto)]
