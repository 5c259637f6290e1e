// Each move of the program replay does to its tables what a step of two hosts does that keep their duties. There is no code here: proofs/ has what a page of numbers
// means, and the laws between crate tables and crate moves_laws.

#![tactic(auto)]
