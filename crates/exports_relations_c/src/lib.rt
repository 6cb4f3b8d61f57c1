// What C calls: each function of `exports_relations` under its own name, with the same promise and nothing else. A
// library exports nothing itself, so the C interface needs these second functions, and it needs their flat parameters.
#![tactic(auto)]

mod picks;
mod relations;
mod restricting;
