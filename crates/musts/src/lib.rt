//! Spanning trees with all of some rows, and with no others than some rows: laws, no code.
#![tactic(auto)]
