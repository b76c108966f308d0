//! Completions of rows to a spanning tree by a greedy choice, and what they say of a search for trees inside limits: definitions and laws, no code.
#![tactic(auto)]
