//! The calls that the measurements of `bench/` make, for a program in ordinary Rust to link.
//!
//! A 128-bit number doesn't cross to C, so it is passed as its upper and its lower 64 bits.
#![tactic(auto)]

mod bounds;
mod excluding;
mod reading;
mod roots;
mod sorting;
