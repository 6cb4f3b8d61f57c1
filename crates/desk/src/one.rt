// Jobs on one set, which is in the file of word 2.
use bdd::MOST_ENTRIES;
use desk_jobs::files;
use desk_jobs::files::Input;
use desk_jobs::runs::{Runs, Work};
use desk_words::lines::Tails;
use desk_words::outcome::Ended;

// The pairs of a set with itself are at most its entries.
const PAIRS: usize = 4 * MOST_ENTRIES;

// desk sign IN OUT.
pub fn sign(rt: &HostRuntime, input: &Input<'_>) -> Ended {
    let mut out = Runs::new();
    let mut pairs = [0u32; PAIRS];
    let mut work = Work::new();
    let answer = named_ops::signing_order(
        &input.set,
        &mut out.output(),
        &mut work.lend(&mut pairs),
    );
    files::finish(rt, answer, 3, Tails::one(input.tail), &out)
}

// Runs a job on the set.
pub fn run(rt: &HostRuntime, job: &dyn Fn(&HostRuntime, &Input<'_>) -> Ended) -> Ended
    requires { IsAlwaysCallable job.now }
{
    let mut runs = Runs::new();
    let input = files::load(rt, 2, &mut runs)?;
    job(rt, &input)
}
