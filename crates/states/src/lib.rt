//! Trees that must have given rows and may not have others: existence, first and next of the list, with no code.
#![tactic(auto)]
