//! The promises of `komihash`, proved by a caller from its public contracts and stable rulesets. If
//! these no longer say what a promise needs, or the search finds less, this crate isn't proved.

#![tactic(auto)]

pub mod by_search;
pub mod calls;
pub mod laws;
