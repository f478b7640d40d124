//! Callers of `komihash`, one file for each subject.
#![tactic(auto, using(komihash::proofs::LawLemmas::laws))]

pub mod call_lists;
pub mod checkpoints;
pub mod choices;
pub mod costs;
pub mod cuts;
pub mod filters;
pub mod hashed;
pub mod keys;
pub mod known;
pub mod lists;
pub mod maps;
pub mod numbers;
pub mod own_streams;
pub mod random;
pub mod readers;
pub mod rings;
pub mod samples;
pub mod shards;
pub mod shuffles;
pub mod stores;
#[cfg(test)]
mod tests;
pub mod trees;
pub mod uploads;
