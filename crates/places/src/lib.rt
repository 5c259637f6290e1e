// What is read and where it is refused: document 02, E1 and E6. There is no code here: specs/ says what is claimed of the place that a refusal
// carries and of an APDU from a later edition, proofs/ shows it of every decoder.

#![tactic(auto)]
