#![tactic(auto)]
// Statements only: see specs/.
