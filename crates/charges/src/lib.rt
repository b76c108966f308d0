//! Connection charge: the definitions and their laws, with no code.
#![tactic(auto)]
