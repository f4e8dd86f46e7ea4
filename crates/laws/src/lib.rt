// The laws over all accepted sequences from the fresh state. What is said stands in specs/, why it holds in
// proofs/; there is no code.
#![tactic(auto)]
