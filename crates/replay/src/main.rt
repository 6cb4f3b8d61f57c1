// Replays the recorded list of the original crate's answers (oracle/record makes it; it stands in the file stdin):
// every job is run through the library and compared, entry by entry and byte by byte. Writes how many agreed.
#![tactic(auto)]

mod bytes;
mod job;
mod makers;
mod operators;
mod sets;

fn main(rt: HostRuntime) {
    replay_list::list::run(&rt, job::agrees);
}
