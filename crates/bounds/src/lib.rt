// What the figures of a noise answer can be: laws on the definitions of the crates below (specs/, proofs/). No code.
#![tactic(auto)]
