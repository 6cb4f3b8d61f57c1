// The desk's jobs of module 7, on some options of one set: quantifiers, selection, restriction. What each job does is the library's;
// what is proved here is that it is safe and ends.
#![tactic(auto)]

pub mod relations;
