//! The network file: its meaning, its checks and Open as definitions, with no code.
#![tactic(auto)]
