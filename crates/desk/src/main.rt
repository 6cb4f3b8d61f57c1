// A program for the signing desk: words and files of the byte form in, one plain line out, a file where the job makes one, and how it
// ended on a channel of its own. A thin one: what each job does is the library's, and what is proved here is that it is safe and ends.
#![tactic(auto)]

mod one;
mod two;

use desk_jobs::{PAIRS, makers, sets};
use desk_relations::relations;
use desk_words::jobs::Job;
use desk_words::lines::Line;
use desk_words::outcome::{Ended, Failure, Outcome};
use desk_words::{outcome, usage, words};

// A job that walks pairs.
type PairJob<'a> = &'a dyn Fn(&HostRuntime, &mut [u32; PAIRS]) -> Ended;

// A call of its own: proved of no run of so many zeros.
fn lend(rt: &HostRuntime, job: PairJob<'_>, pairs: &mut [u32; PAIRS]) -> Ended
    requires { IsAlwaysCallable job.now }
{
    job(rt, pairs)
}

// The pair run is here alone, so that the program has it once.
fn with_pairs(rt: &HostRuntime, job: PairJob<'_>) -> Ended
    requires { IsAlwaysCallable job.now }
{
    let mut pairs = [0u32; PAIRS];
    lend(rt, job, &mut pairs)
}

fn run(rt: &HostRuntime, job: Job) -> Ended {
    let line = Line::output(rt);
    match job {
        Job::Check => one::run(rt, &sets::check),
        Job::Show => one::run(rt, &sets::show),
        Job::HashReady => one::run(rt, &sets::hash_ready),
        Job::Value => one::run(rt, &sets::value),
        Job::Not => one::run(rt, &sets::not),
        Job::Sign => one::run(rt, &one::sign),
        Job::False => makers::constant(rt, false),
        Job::True => makers::constant(rt, true),
        Job::Literal => makers::literal(rt),
        Job::Same => two::same(rt),
        Job::Exists => with_pairs(rt, &relations::exists),
        Job::ForAll => with_pairs(rt, &relations::for_all),
        Job::Select => with_pairs(rt, &relations::select),
        Job::Restrict => relations::restrict(rt),
        Job::Pick => with_pairs(rt, &desk_picks::run),
        Job::Dry => with_pairs(rt, &two::dry),
        Job::Operator => with_pairs(rt, &two::by_word),
        Job::Named => with_pairs(rt, &two::by_name),
        Job::Help => line.ended(usage::whole(line), Outcome::Yes, None),
        Job::Version => line.ended(usage::version(line), Outcome::Yes, None),
    }
}

// With no word the list of words is a fault's line.
fn started(rt: &HostRuntime) -> Ended {
    if !words::has(rt, 1) {
        let _ = usage::whole(Line::fault(rt));
        return Err(Failure::Wrong);
    }
    run(rt, Job::asked(rt)?)
}

fn main(rt: HostRuntime) {
    outcome::tell(&rt, started(&rt));
}
