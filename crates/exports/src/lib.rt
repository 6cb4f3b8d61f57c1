// The library under plain names, for callers in C and Rust: a run passes as a pointer and a count, a lent number as a pointer, and an
// answer as the paper's number, with its values through lent numbers, 0 in a refusal; a check gives 0 for no. What constants can give
// is not here: `include/joistpetal.h` has the forms without a flip or a limit and the operators by name as inline calls of these.
// The C interface needs flat parameters, so each function builds the structs of the library from them.
#![tactic(auto)]

pub mod by_number;
pub mod by_table;
pub mod bytes;
pub mod checking;
pub mod comparing;
pub mod dry;
pub mod makers;
pub mod numbers;
pub mod tables;
