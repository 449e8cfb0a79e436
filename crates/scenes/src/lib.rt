#![tactic(auto)]
// Worked scenes: what the definitions give is what the Rust gave. No functions.
