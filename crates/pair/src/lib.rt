// Two ends joined by a carrier, and what holds of every run of the two: document 01, "The carrier in the pair statement".
// There is no code here: specs/ says what the carrier does and what is claimed, proofs/ shows the claims.

#![tactic(auto)]
