// Jobs on two sets: the operators, their dry run, and the six functions that they are named by.
use bdd::{Flip, Flips, Limit, Operands, Refusal, WorkingRuns};
use boolean_ops::Dry;
use replay_list::numbers::Numbers;
use replay_list::rooms::{Lengths, Work};
use replay_list::runs;
use replay_list::runs::{ENTRIES, MARK};
use replay_list::set::JobSet;

// The answers that are recorded of a table; a table of another length is bad.
const TABLE: usize = 10;

// Kind 8: op_function at one place. The numbers are the list's own; 3 is recorded where there is no such function.
pub fn functions(mut numbers: Numbers<'_>) -> Option<bool> {
    let operator = numbers.word();
    let l = numbers.byte();
    let r = numbers.byte();
    let answer = match operator {
        8 => op_function::and(l, r),
        14 => op_function::or(l, r),
        11 => op_function::imp(l, r),
        9 => op_function::iff(l, r),
        6 => op_function::xor(l, r),
        4 => op_function::and_not(l, r),
        _ => 3,
    };
    Some(u32::from(answer) == numbers.word())
}

// Flips and limits are recorded as number + 1, and none as 0.
fn flip(recorded: u32) -> Flip {
    recorded.checked_sub(1).map(lent::narrow16)
}

fn limit(recorded: usize) -> Limit {
    recorded.checked_sub(1)
}

// An operator: the table, of which the first places are lent (a table may be too long or too short, and nothing allocates), the flips
// and the limit.
#[derive(Drop)]
struct Operator {
    table: [u8; TABLE],
    places: usize,
    flips: Flips,
    limit: Limit,
}

impl Operator {
    // None where the table is too long.
    fn read(numbers: &mut Numbers<'_>) -> Option<Operator> {
        let places = numbers.size_within(TABLE)?;
        let mut table = [0u8; TABLE];
        runs::lay(&mut table, numbers, Numbers::byte);
        let left = flip(numbers.word());
        let right = flip(numbers.word());
        let output = flip(numbers.word());
        let limit = limit(numbers.size());
        Some(Operator {
            table,
            places,
            flips: Flips {
                left,
                right,
                output,
            },
            limit,
        })
    }

    // What it works on.
    fn on<'a>(&'a self, left: &'a JobSet, right: &'a JobSet) -> Operands<'a> {
        Operands {
            table: lent::front(&self.table, self.places),
            left: left.lent(),
            right: right.lent(),
            flips: self.flips,
        }
    }
}

// The runs are lent as far as the job says, and are looked at as far.
fn operator_agrees(
    operator: &Operator,
    width: usize,
    lengths: Lengths,
    mut numbers: Numbers<'_>,
) -> Option<bool> {
    let mut left = JobSet::zero();
    let mut right = JobSet::zero();
    let mut output = JobSet::zero();
    let mut work = Work::zero();
    left.lay(numbers.size_within(ENTRIES)?, &mut numbers);
    right.lay(numbers.size_within(ENTRIES)?, &mut numbers);
    output.fill(width, MARK);
    work.fill(lengths, MARK);
    let answer = boolean_ops::fused_binary_flip_op_with_limit(
        operator.limit,
        &operator.on(&left, &right),
        &mut output.lent_mut(),
        &mut work.lent_mut(),
    );
    let x = runs::left_by(numbers.peek(), MARK);
    Some(work.holds(x) && output.answer_agrees(answer, numbers, MARK))
}

// Kind 9: an operator. The runs are made behind this, so that a job whose rooms do not fit costs none.
pub fn operates(mut numbers: Numbers<'_>) -> Option<bool> {
    let operator = Operator::read(&mut numbers)?;
    let width = numbers.size_within(ENTRIES)?;
    let lengths = Lengths::read(&mut numbers)?;
    operator_agrees(&operator, width, lengths, numbers)
}

// The answer, "can it hold" and c that are recorded next.
fn count_agrees(mut numbers: Numbers<'_>, answer: Result<Dry, Refusal>) -> bool {
    let recorded = numbers.word();
    match answer {
        Err(why) => u32::from(why) == recorded,
        Ok(Dry { can_hold, pairs }) => {
            recorded == 0 && can_hold == numbers.flag() && pairs == numbers.size()
        }
    }
}

// The dry run is lent two runs.
fn dry_run_agrees(operator: &Operator, lengths: Lengths, mut numbers: Numbers<'_>) -> Option<bool> {
    let mut left = JobSet::zero();
    let mut right = JobSet::zero();
    let mut work = Work::zero();
    left.lay(numbers.size_within(ENTRIES)?, &mut numbers);
    right.lay(numbers.size_within(ENTRIES)?, &mut numbers);
    work.fill(lengths, MARK);
    let WorkingRuns { pairs, stack, .. } = work.lent_mut();
    let answer = boolean_ops::check_fused_binary_flip_op(
        operator.limit,
        &operator.on(&left, &right),
        pairs,
        stack,
    );
    let x = runs::left_by(numbers.peek(), MARK);
    Some(work.holds(x) && count_agrees(numbers, answer))
}

// Kind 10: the dry run.
pub fn dry_runs(mut numbers: Numbers<'_>) -> Option<bool> {
    let operator = Operator::read(&mut numbers)?;
    let lengths = Lengths::read_two(&mut numbers)?;
    dry_run_agrees(&operator, lengths, numbers)
}
