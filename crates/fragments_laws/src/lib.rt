// What is answered as envelopes arrive: document 02, E4. There is no code here: specs/ says what is claimed of the answers, proofs/ shows
// it of the calls that crate fragments has.

#![tactic(auto)]
