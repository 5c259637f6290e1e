// Two centres that forward messages, the host of each, and a broker: duties 13 to 15 of docs/HOST.md as definitions, and what holds of every run.
// There is no code here: specs/ says what a host does and what is promised, proofs/ shows the promise.

#![tactic(auto)]
