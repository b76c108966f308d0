//! Operations: the definitions of Reach, Order, Cost, Page, Pick and Front, and a run of pages, with no code.
#![tactic(auto)]
