// What the documents say of the machines' step: clause by clause, field by field with no definition of the machine on the right, and what
// every step keeps. There is no code here, and no definition: proofs/ shows it of the definitions of `machine`.

#![tactic(auto)]
