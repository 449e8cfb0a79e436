#![tactic(auto)]
// Laws on lists that several crates cite: see proofs/.
