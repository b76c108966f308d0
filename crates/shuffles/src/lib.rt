//! The same network with its rows in another sequence, with no code: specs/Shuffles.antt says what that is, proofs/ what stays the same.
#![tactic(auto)]
