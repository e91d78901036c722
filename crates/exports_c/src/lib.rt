// The calls of exports as C functions, for Rust and C to link: the same parameters, the same clauses, no work of its own.
#![tactic(auto)]

pub mod checkers;
pub mod fits;
pub mod models;
pub mod readers;
