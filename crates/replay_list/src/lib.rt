// What the programs that replay recorded answers share: reading the list line by line, laying a job's runs out, comparing what a
// call leaves in them, and the count of what agrees. What is proved here is that it is safe and ends.
#![tactic(auto)]

pub mod list;
pub mod numbers;
pub mod rooms;
pub mod runs;
pub mod set;
