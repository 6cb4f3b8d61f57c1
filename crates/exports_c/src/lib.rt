// What C calls: each function of `exports` under its own name, with the same promise and nothing else. A
// library exports nothing itself, so the C interface needs these second functions, and it needs their flat parameters.
#![tactic(auto)]

mod by_number;
mod by_table;
mod bytes;
mod checking;
mod comparing;
mod dry;
mod makers;
mod tables;
