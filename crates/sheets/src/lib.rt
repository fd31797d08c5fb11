// Sheets of records with two fields, as RFC 4180 text with quoted fields, and names kept on them. The definitions are in specs/, the laws and both round
// trips in proofs/. There is no code.

#![tactic(auto)]
