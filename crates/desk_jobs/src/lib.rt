// The desk's files, and its jobs that need no operator. A job takes words and files of the byte form, prints one plain line, and
// writes a file where it makes one. What each job does is the library's; what is proved here is that it is safe and ends.
#![tactic(auto)]

// The pairs that there is room for; their run is half of the stack that a program has.
pub const ROOM: usize = 262_144;

pub const PAIRS: usize = 4 * ROOM;

pub mod compared;
pub mod files;
pub mod makers;
pub mod runs;
pub mod sets;
