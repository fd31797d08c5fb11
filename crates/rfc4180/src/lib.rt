// Cayley tables as RFC 4180 text. The definitions are in specs/, the laws and both round trips in proofs/. There is no code.

#![tactic(auto)]
