//! What the programs that run worked cases have in common.
#![tactic(auto)]

pub mod counts;
pub mod drafts;
pub mod tally;
pub mod watching;
