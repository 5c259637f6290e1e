// The moves that the program replay makes are those of the theorem of the duties. There is no code here: proofs/ has the equations between crate moves and
// the machine of crates pair and duties.

#![tactic(auto)]
