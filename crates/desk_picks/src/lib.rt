// desk pick IN OUT [V]..: the set is in the file of word 2, what is picked of it goes to that of word 3. What is picked is the library's;
// what is proved here is that it is safe and ends.
#![tactic(auto)]

ghost use Rattle.std.specs.Prelude.{◌≤◌};

use bdd::{MOST_ENTRIES, OutputRuns};
use desk_jobs::files::Input;
use desk_jobs::runs::{Runs, Work};
use desk_jobs::{PAIRS, files};
use desk_words::lines::Tails;
use desk_words::options;
use desk_words::options::PLACES;
use desk_words::outcome::Ended;

// The places of each spare run, a quarter of the stack that a program has in all three.
const SPARE: usize = 64 * MOST_ENTRIES;

// The entries that there is room for: the spare runs hold so many four times, and once for each picked option.
fn width(k: usize) -> usize
    ensures { result ≤ 4096 }
{
    if PLACES < k {
        return 0;
    }
    MOST_ENTRIES.min(SPARE / (k + 4))
}

fn make(rt: &HostRuntime, picks: &[u16], input: &Input<'_>, pairs: &mut [u32; PAIRS]) -> Ended {
    let w = width(picks.len());
    let mut out = Runs::new();
    let mut work = Work::new();
    let mut spare_variable = [0u16; SPARE];
    let mut spare_low = [0u32; SPARE];
    let mut spare_high = [0u32; SPARE];
    let answer = picking::pick(
        &input.set,
        picks,
        &mut OutputRuns {
            variable: &mut out.variable[..w],
            low: &mut out.low[..w],
            high: &mut out.high[..w],
        },
        &mut work.lend(pairs),
        &mut OutputRuns {
            variable: &mut spare_variable,
            low: &mut spare_low,
            high: &mut spare_high,
        },
    );
    files::finish(rt, answer, 3, Tails::one(input.tail), &out)
}

pub fn run(rt: &HostRuntime, pairs: &mut [u32; PAIRS]) -> Ended {
    let mut places = [0u16; PLACES];
    let picks = options::list(rt, &mut places)?;
    let mut runs = Runs::new();
    let input = files::load(rt, 2, &mut runs)?;
    make(rt, picks, &input, pairs)
}
