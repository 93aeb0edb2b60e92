//! What counters are worth in every run: no node has more of one than was committed, and a node that has all has as much.
#![tactic(auto)]

pub mod totals;
