// Two cards joined by a carrier: what crate pair claims, said of the definitions that the exported calls' contracts cite.
// There is no code here: specs/ puts the calls on the carrier, proofs/ shows the claims.

#![tactic(auto)]
