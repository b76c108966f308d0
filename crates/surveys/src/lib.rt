//! A newer survey over an older: the definitions and their laws, with no code.
#![tactic(auto)]
