//! The configuration service: what it stores of each shard, and what it does with a message. No look-up goes through all
//! that is stored. After the configuration service of Bravo and Gotsman (PODC 2019); its messages are this project's own.
#![tactic(auto)]

mod comparing;
mod holding;
mod places;
mod sending;
mod service;
mod serving;
#[cfg(test)]
mod tests;

pub use comparing::CasAnswer;
pub use service::ConfigService;
