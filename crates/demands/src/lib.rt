//! The three demands on the library, with no code: specs/Demands.antt says them over the definitions that the contracts cite, proofs/ prove them.
#![tactic(auto)]
