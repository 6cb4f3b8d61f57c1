// The recorded jobs of picking, run through the library and compared. They stand apart so that they are proved beside the other
// jobs; what is proved here is that it is safe and ends.
#![tactic(auto)]

use bdd::{Answer, OutputRuns, RuleSet, WorkingRuns};
use replay_list::numbers::Numbers;
use replay_list::rooms::{Rooms, Work};
use replay_list::set::{JobSet, Set};
use replay_list::{runs, set};

// The longest spare run of a job.
pub const SPARE: usize = 1024;

// The options that are picked by: one, or a list of them. They are read before the runs are there that the call is lent, so they are
// data and no closure.
#[derive(Clone, Copy)]
pub enum Picks<'a> {
    One(u16),
    List(&'a [u16]),
}

fn call(
    picks: Picks<'_>,
    set: &RuleSet<'_>,
    output: &mut OutputRuns<'_>,
    work: &mut WorkingRuns<'_>,
    spare: &mut OutputRuns<'_>,
) -> Answer {
    match picks {
        Picks::One(v) => picking::var_pick(set, v, output, work, spare),
        Picks::List(picks) => picking::pick(set, picks, output, work, spare),
    }
}

// Whether the library's answer is the recorded one. The runs are lent as far as the job says, full of its mark, and are looked at
// as far.
pub fn agrees(picks: Picks<'_>, rooms: Rooms, set: &JobSet, recorded: Numbers<'_>) -> bool {
    let mut output = JobSet::zero();
    let mut work = Work::zero();
    let mut spare = Set::<SPARE>::zero();
    let Rooms {
        width,
        lengths,
        extra,
        mark,
    } = rooms;
    output.fill(width, mark);
    work.fill(lengths, mark);
    spare.fill(extra, mark);
    let answer = call(
        picks,
        &set.lent(),
        &mut output.lent_mut(),
        &mut work.lent_mut(),
        &mut spare.lent_mut(),
    );
    let x = runs::left_by(recorded.peek(), mark);
    work.holds(x) && set::holds(&spare.lent(), x) && output.answer_agrees(answer, recorded, mark)
}
