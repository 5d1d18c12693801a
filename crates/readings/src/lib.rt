// Document 01's starred readings, as rows of one listing (specs/) covered by one theorem (proofs/). No code.
#![tactic(auto)]
