// Cards of two limits: document 02, E3; and the number that a record holds after a start: E9. There is no code here: specs/ says what is
// claimed of a card whose messages end at a lower limit, proofs/ shows it of the readers of an APDU, of message data and of envelopes, and
// of the bytes that a call leaves.

#![tactic(auto)]
