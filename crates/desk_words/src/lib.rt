// The words that the desk's program is started with and the lines that it prints: which job is asked, with which operator and
// choices, and what is said of each end. What is proved here is that it is safe and ends.
#![tactic(auto)]

pub mod choices;
pub mod jobs;
pub mod lines;
pub mod options;
pub mod outcome;
pub mod tables;
pub mod texts;
pub mod usage;
pub mod words;
