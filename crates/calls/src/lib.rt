// What the calls of the library say and leave, from all that is lent. The definitions are in specs/, examples in proofs/. There is no code.

#![tactic(auto)]
