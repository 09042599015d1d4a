//! What holds of any list, of numbers or of anything, that std has no lemma for. It has no code: `proofs` is what other
//! crates cite.
#![tactic(auto)]
