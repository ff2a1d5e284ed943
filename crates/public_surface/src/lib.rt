//! Nothing but tests: each public type of the crates by its literal, each public call by its
//! signature.
#![tactic(auto)]

#[cfg(test)]
mod tests;
