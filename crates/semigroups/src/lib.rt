// Definitions and laws of finite semigroups that are given by their Cayley tables. There is no code: the definitions are in specs/, and their proofs in
// proofs/.

#![tactic(auto)]
