//! The C library: each call answers 0 or the number of a refusal, and a refused call changes
//! nothing that it was given.
//!
//! A slice of bytes is a pointer and a length in C; the pointers themselves are tested in `sws.h`.
#![tactic(auto)]

mod names;
mod numbers;
mod owner;
mod planes;
mod plans;
mod rows;
mod shared_plan;
#[cfg(test)]
mod tests;
