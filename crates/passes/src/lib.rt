//! Passes over the list of trees with known rows in front: definitions and laws, no code.
#![tactic(auto)]
