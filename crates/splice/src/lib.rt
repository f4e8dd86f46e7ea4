// A saved image with single records replaced: what stands at a position and what an image becomes when that changes. What is said
// stands in specs/, why it holds in proofs/; there is no code.
#![tactic(auto)]
