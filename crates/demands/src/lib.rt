// Demands 1 and 2, at the definitions that the contracts of the entry points cite. This crate holds definitions and laws only.

#![tactic(auto)]
