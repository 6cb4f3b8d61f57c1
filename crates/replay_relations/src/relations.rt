// One recorded job: its kind, its list of numbers (an option and perhaps its value, the values of a restriction, or the options that
// are picked), the rooms, the set, and the recorded answer.
use bdd::{Answer, OutputRuns, RuleSet, WorkingRuns};
use replay_list::numbers::Numbers;
use replay_list::rooms::{Rooms, Work};
use replay_list::runs;
use replay_list::runs::{BYTES, ENTRIES};
use replay_list::set::JobSet;
use replay_picks::{Picks, SPARE};
use restriction::RestrictionRuns;

// The list, the rooms and how many entries the set has; the entries and the recorded answer stand behind.
#[derive(Clone, Copy)]
struct Job<'a> {
    list: Numbers<'a>,
    count: usize,
    rooms: Rooms,
    size: usize,
}

impl<'a> Job<'a> {
    // None where it does not fit; the list and the extra run have their own most.
    fn read(numbers: &mut Numbers<'a>, most: usize, most_extra: usize) -> Option<Job<'a>> {
        let count = numbers.size_within(most)?;
        let list = *numbers;
        numbers.skip(count);
        let rooms = Rooms::read(numbers, most_extra)?;
        let size = numbers.size_within(ENTRIES)?;
        Some(Job {
            list,
            count,
            rooms,
            size,
        })
    }
}

// What is asked of a set, picking aside: on an option, perhaps with its value, or with a list of values. It is read before the runs
// are there that the call is lent, so it is data and no closure.
#[derive(Clone, Copy)]
enum Question<'a> {
    Exists(u16),
    ForAll(u16),
    Select(u16, bool),
    VarRestrict(u16, bool),
    Restrict(&'a [u8]),
}

impl<'a> Question<'a> {
    // None of another kind; the kinds are the list's own numbers. The list is read both ways: as an option and a value, and as values.
    fn read(kind: u32, mut list: Numbers<'_>, values: &'a [u8]) -> Option<Question<'a>> {
        let v = list.half_word();
        let on = list.flag();
        match kind {
            11 => Some(Question::Exists(v)),
            12 => Some(Question::ForAll(v)),
            13 => Some(Question::Select(v, on)),
            14 => Some(Question::VarRestrict(v, on)),
            15 => Some(Question::Restrict(values)),
            _ => None,
        }
    }
}

// The map is lent to restriction alone, which is lent no pairs.
// Its runs are made in both arms: the borrow check does not cover a function that hands the stack and the index out of `work`.
fn call(
    question: Question<'_>,
    set: &RuleSet<'_>,
    output: &mut OutputRuns<'_>,
    work: &mut WorkingRuns<'_>,
    map: &mut [u32],
) -> Answer {
    match question {
        Question::Exists(v) => relation_ops::var_exists(set, v, output, work),
        Question::ForAll(v) => relation_ops::var_for_all(set, v, output, work),
        Question::Select(v, on) => relation_ops::var_select(set, v, on, output, work),
        Question::VarRestrict(v, on) => {
            let mut runs = RestrictionRuns {
                stack: &mut *work.stack,
                index: &mut *work.index,
                map,
            };
            restriction::var_restrict(set, v, on, output, &mut runs)
        }
        Question::Restrict(values) => {
            let mut runs = RestrictionRuns {
                stack: &mut *work.stack,
                index: &mut *work.index,
                map,
            };
            restriction::restrict(set, values, output, &mut runs)
        }
    }
}

// The runs are lent as far as the job says, full of its mark, and are looked at as far.
fn answers(question: Question<'_>, rooms: Rooms, set: &JobSet, recorded: Numbers<'_>) -> bool {
    let mut output = JobSet::zero();
    let mut work = Work::zero();
    let Rooms {
        width,
        lengths,
        extra,
        mark,
    } = rooms;
    output.fill(width, mark);
    work.fill(lengths, mark);
    let mut map = [mark; ENTRIES];
    let map_places = extra.min(ENTRIES);
    let answer = call(
        question,
        &set.lent(),
        &mut output.lent_mut(),
        &mut work.lent_mut(),
        &mut map[..map_places],
    );
    let x = runs::left_by(recorded.peek(), mark);
    work.holds(x)
        && runs::holds(&map[..map_places], x)
        && output.answer_agrees(answer, recorded, mark)
}

// All kinds but picking.
fn asks(kind: u32, job: Job<'_>, mut numbers: Numbers<'_>) -> Option<bool> {
    let mut set = JobSet::zero();
    let mut values = [0u8; BYTES];
    set.lay(job.size, &mut numbers);
    let values = &mut values[..job.count.min(BYTES)];
    let mut list = job.list;
    runs::lay(values, &mut list, Numbers::byte);
    let question = Question::read(kind, job.list, values)?;
    Some(answers(question, job.rooms, &set, numbers))
}

// Picking by one option.
fn picks_one(job: Job<'_>, mut numbers: Numbers<'_>) -> bool {
    let mut set = JobSet::zero();
    set.lay(job.size, &mut numbers);
    let mut list = job.list;
    let picks = Picks::One(list.half_word());
    replay_picks::agrees(picks, job.rooms, &set, numbers)
}

// Picking by a list of them.
fn picks_all(job: Job<'_>, mut numbers: Numbers<'_>) -> bool {
    let mut set = JobSet::zero();
    let mut options = [0u16; ENTRIES];
    set.lay(job.size, &mut numbers);
    let options = &mut options[..job.count.min(ENTRIES)];
    let mut list = job.list;
    runs::lay(options, &mut list, Numbers::half_word);
    let picks = Picks::List(options);
    replay_picks::agrees(picks, job.rooms, &set, numbers)
}

// None where the job is of no kind or does not fit. The runs are made behind that, so that such a job costs none.
fn job_agrees(mut numbers: Numbers<'_>) -> Option<bool> {
    match numbers.word() {
        kind @ 11..=15 => {
            let job = Job::read(&mut numbers, BYTES, ENTRIES)?;
            asks(kind, job, numbers)
        }
        16 => {
            let job = Job::read(&mut numbers, ENTRIES, SPARE)?;
            Some(picks_one(job, numbers))
        }
        17 => {
            let job = Job::read(&mut numbers, ENTRIES, SPARE)?;
            Some(picks_all(job, numbers))
        }
        _ => None,
    }
}

// Whether the library's answer to the job is the recorded one; not where the job does not fit.
pub fn agrees(numbers: Numbers<'_>) -> bool {
    job_agrees(numbers).unwrap_or(false)
}
