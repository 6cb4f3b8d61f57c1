// Restriction (document 01, module 7; `restriction`, `restrict` and `var_restrict` of the Rust's
// _impl_relation_ops.rs): the value of a set with some options put as asked, which it then no longer
// looks at. The array is made with its LOW side first, so it is not in signing order in general.
#![tactic(auto)]

mod exploration;

ghost use Rattle.std.specs.Prelude.{◌≡◌, ◌||◌, [], nat_lt, length};
ghost use Rattle.bdd.specs.Array.{options};
ghost use Rattle.bdd.specs.Jobs as jobs;
ghost use Rattle.bdd.specs.Lent.{set_of, output_of, SameOutput};
ghost use Rattle.bdd.specs.Operations.{stack_short};
ghost use Rattle.bdd.specs.Signed.{low_first};
ghost use Rattle.ending.specs.Ends.{Comes};
ghost use Rattle.restriction.specs.Exploring.{Checked, Rooms, restricted_value};
ghost use Rattle.restriction.specs.Restricts.{are_values, Restricts, Zeros, ByList, ByOption, working_of, SameRuns};

use bdd::{Answer, OutputRuns, Refusal, RuleSet};
use ending::Explored;
use exploration::Restricted;

// The places for the values of the greatest number of options.
const PLACES: usize = bdd::MOST_OPTIONS as usize;

// The lent runs that a restriction works in: a map run, and no pair run.
#[derive(Drop)]
pub struct RestrictionRuns<'a> {
    pub stack: &'a mut [u32],
    pub index: &'a mut [u32],
    pub map: &'a mut [u32],
}

// n values of off, on and free.
#[tactic(auto, unfolding(crate::specs::Restricts::are_values))]
fn are_values(values: &[u8], n: u16) -> bool
    ensures { result ≡ are_values n values.now }
{
    values.len() == n as usize && values.iter().all(|&x| x <= 2)
}

// Whether a run is shorter than a set of n options and so many entries asks for, with the room W.
fn is_short(n: u16, size: usize, room: usize, work: &RestrictionRuns<'_>) -> bool
    ensures { result ≡ (stack_short n (length work.now.stack.now) || nat_lt (length work.now.index.now) room || nat_lt (length work.now.map.now) size) }
{
    work.stack.len() < 2 * (n as usize) + 1 || work.index.len() < room || work.map.len() < size
}

fn clear_working(work: &mut RestrictionRuns<'_>)
    ensures same { SameRuns work.old work.new }
    ensures zeros { Zeros (working_of work.old) (working_of work.new) }
{
    lent::clear(work.stack);
    lent::clear(work.index);
    lent::clear(work.map);
}

// The runs one by one: the check does not cover a struct that `perform` makes of two whole runs and a
// part of the third.
fn explore_with(
    job: &Restricted<'_>,
    most: usize,
    out: &mut OutputRuns<'_>,
    stack: &mut [u32],
    index: &mut [u32],
    map: &mut [u32],
) -> Explored
    requires { Checked (set_of job.now.set) job.now.values.now × Rooms (set_of job.now.set) most (output_of out.old) stack.old index.old map.old }
    ensures same { SameOutput out.old out.new }
    ensures comes { let a = set_of job.now.set in
        Comes low_first (options a) (restricted_value a job.now.values.now) most (output_of out.old) (output_of out.new) result }
{
    exploration::explore(job, most, out, &mut RestrictionRuns { stack, index, map })
}

// What both forms do once their own checks are passed: 6 and 9, the array, and the working runs
// cleared.
fn perform(
    job: &Restricted<'_>,
    n: u16,
    out: &mut OutputRuns<'_>,
    work: &mut RestrictionRuns<'_>,
) -> Answer
    requires { Checked (set_of job.now.set) job.now.values.now × (n ≡ options (set_of job.now.set)) }
    ensures same { SameOutput out.old out.new }
    ensures same_work { SameRuns work.old work.new }
    ensures restricts { let a = set_of job.now.set in
        Restricts [] a (restricted_value a job.now.values.now) (output_of out.old) (output_of out.new) (working_of work.old) (working_of work.new) result }
{
    let size = job.set.variable.len();
    let w = lent::room(out);
    if is_short(n, size, w, work) {
        return Err(Refusal::ShortRun);
    }
    let bound = ending::bound_of(None, w);
    // As much of the map as there are entries, so that no more of it is cleared as the exploration
    // begins.
    let explored = explore_with(
        job,
        bound.most,
        out,
        work.stack,
        work.index,
        &mut work.map[..size],
    );
    let answer = ending::answer_of(explored, bound);
    ending::leave(answer, n, out);
    clear_working(work);
    answer
}

// By n values of 0 (off), 1 (on) and 2 (free).
pub fn restrict(
    set: &RuleSet<'_>,
    values: &[u8],
    out: &mut OutputRuns<'_>,
    work: &mut RestrictionRuns<'_>,
) -> Answer
    ensures same { SameOutput out.old out.new }
    ensures same_work { SameRuns work.old work.new }
    ensures restricts { ByList (set_of set.now) values.now (output_of out.old) (output_of out.new) (working_of work.old) (working_of work.new) result }
{
    let Some(n) = checks::check_ordered(set) else {
        return Err(Refusal::LeftNotOrdered);
    };
    if !are_values(values, n) {
        return Err(Refusal::BadList);
    }
    perform(&Restricted { set: *set, values }, n, out, work)
}

fn digit(on: bool) -> u8
    ensures { result ≡ jobs.digit on }
{
    u8::from(on)
}

// By one option and its value.
pub fn var_restrict(
    set: &RuleSet<'_>,
    v: u16,
    value: bool,
    out: &mut OutputRuns<'_>,
    work: &mut RestrictionRuns<'_>,
) -> Answer
    ensures same { SameOutput out.old out.new }
    ensures same_work { SameRuns work.old work.new }
    ensures restricts { ByOption (set_of set.now) v value (output_of out.old) (output_of out.new) (working_of work.old) (working_of work.new) result }
{
    let Some(n) = checks::check_ordered(set) else {
        return Err(Refusal::LeftNotOrdered);
    };
    if n <= v {
        return Err(Refusal::NoSuchOption);
    }
    let mut places = [2u8; PLACES];
    places[v as usize] = digit(value);
    let values = lent::front(&places, n as usize);
    perform(&Restricted { set: *set, values }, n, out, work)
}
