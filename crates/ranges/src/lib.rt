//! Costs known only as a range (#110): definitions and laws, no code.
#![tactic(auto)]
