//! What the code of every rule says alike: how an input is refused, and what a sender hears of that.
#![tactic(auto)]

mod notices;
mod refusals;
#[cfg(test)]
mod tests;

pub use notices::notify;
pub use refusals::refusal;
