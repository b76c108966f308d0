//! Counting spanning trees by dropping and by merging, with no code.
#![tactic(auto)]
