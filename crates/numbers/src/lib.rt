// The answers of the library as sixteen numbers. The definitions are in specs/, the laws and examples in proofs/. There is no code.

#![tactic(auto)]
