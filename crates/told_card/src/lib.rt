// "Told once" (document 02, E12) of the exported calls: counted by a host from its calls and the numbers that they answered.
// There is no code here: specs/ has the history of such calls, proofs/ shows what holds of it from the bytes that peat_fresh leaves.

#![tactic(auto)]
