// The public calls: plain numbers in and out, and what is lent, slice by slice, as C has it. No work of its own. What Rust and C link is exports_c, over these: the C interface
// needs both to say the same, since a static library is no library for the crates above it.
#![tactic(auto)]

pub mod checkers;
pub mod fits;
pub mod models;
pub mod readers;
