//! A second office in the same table: the definitions and the claim over any sequence of entries, with no code.
#![tactic(auto)]
