//! Worked cases as theorems: scripts with the answers and reports that the definitions give them, and orders with what
//! the definitions say of them. It has no code, and nothing stands on it, so a new case proves no other crate again.
#![tactic(auto)]
