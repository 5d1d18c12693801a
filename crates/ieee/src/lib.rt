// Square root, conversion, order and floor of IEEE 754-2019 as definitions (specs/), with the laws that show they are the
// standard's and those that proofs above cite (proofs/). No code.
#![tactic(auto)]
