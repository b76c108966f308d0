//! Checks: numbered checks in their order, and what a call comes to, with no code.
#![tactic(auto)]
