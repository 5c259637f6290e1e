// Document 01's examples by hand that are marked P, shown true of the definitions: one list, one claim (specs/Examples.antt,
// proofs/Examples.antt).
// There is no code here; the other examples are run by the program `worked`.

#![tactic(auto)]
