// What the numbers say that the exported calls answer: document 02, E11 and E13. There is no code here: specs/ says how a host reads the
// numbers, proofs/ shows that the calls of crate card answer so.

#![tactic(auto)]
