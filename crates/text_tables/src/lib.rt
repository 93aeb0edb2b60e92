//! The texts of schedules, scripts, traces and payloads in tables: what the printers write, what the readers take, and which
//! line is refused for which reason. Each reader and printer is proved to follow its definition; these tables hold the
//! definitions to what other documents say. The crate has nothing but tests.
#![tactic(auto)]

#[cfg(test)]
mod tests;
