// What the program replay holds of two ends and their hosts, and what each move does to it. There is no code here: specs/ has the definitions that the contracts of
// crate replay cite, and proofs/ what the tables give back of what was put into them.

#![tactic(auto)]
