// Module 7 under plain names, for callers in C and Rust: as in `exports`, whose archive holds the calls below these.
// The parameters are flat, as the C interface needs them.
#![tactic(auto)]

pub mod picks;
pub mod relations;
pub mod restricting;
