//! Trees by number, as definitions: an index of every s-th tree of the list, and the tree fetched from it.
#![tactic(auto)]
