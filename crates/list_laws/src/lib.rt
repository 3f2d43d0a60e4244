//! Laws of lists that std lacks: what stands at a place, what holds of all elements, and lists whose elements are changed one
//! after another. It has proofs alone, and no code.
#![tactic(auto)]
