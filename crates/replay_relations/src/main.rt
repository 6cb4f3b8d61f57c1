// Replays the recorded list of module 7's answers (oracle/record makes it; it stands in the file stdin): quantifiers, selection,
// restriction and picking are run through the library and compared, entry by entry, with every run that they are lent. Writes how
// many agreed.
#![tactic(auto)]

mod relations;

fn main(rt: HostRuntime) {
    replay_list::list::run(&rt, relations::agrees);
}
