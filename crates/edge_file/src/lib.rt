//! DIMACS edge files as definitions: their text, and the calls that read one and write one.
#![tactic(auto)]
