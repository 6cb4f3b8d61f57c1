// The exploration by looks that builds an operator's array (the loop of apply_with_flip and
// apply_with_flip_and_limit): pairs wait on a stack, the pair run tells which are finished and as
// which entry, the index run which entry stands under which number. The terminals are left to the
// caller, who has made the checks: `Prepared` of specs/Build.antt says what they come to. The
// operators build with `apply`; work in slices goes by these looks.
#![tactic(auto)]

ghost use Rattle.std.specs.Prelude.{◌≡◌, List, ◌+◌, ◌<◌, ◌≤◌, max, length};
ghost use Rattle.bdd.specs.Bounds.{most_entries};
ghost use Rattle.bdd.specs.Array.{Entry, Runs};
ghost use Rattle.bdd.specs.Lent.{output_of, set_of, SameOutput, SameWorking};
ghost use Rattle.bdd.specs.Pairs.{job_of};
ghost use Rattle.bdd.specs.Signed.{decide, high_first};
ghost use Rattle.pair_run.specs.Held as held;
ghost use Rattle.index_run.specs.Placing.{Fit, Output, Placing};
ghost use Rattle.step.specs.Step.{Within};
ghost use Rattle.build.specs.Build.{Rooms, Prepared, Outcome};
ghost use Rattle.build.specs.Looks.{Replied, Looked, Fits, Stacked, Settleable, Settling, Concludes};
ghost use Rattle.build.specs.Exploring.{Exploring, Underway, Turned, looks};

use bdd::{BddNode, Operands, OutputRuns, Pair, WorkingRuns};
use index_run::Placed;

// What was built: the number of the root's entry and the number behind the last entry. `Placed` has the
// same two numbers of any entry; the root's have a name of their own.
#[derive(Clone, Copy, Debug, PartialEq, Eq)]
pub struct Built {
    pub number: u32,
    pub behind: usize,
}

// What must be finished before the pair on top of the stack: nothing, since it is finished itself;
// one child; or both, the one that becomes high first.
#[derive(Clone, Copy, Debug, PartialEq, Eq)]
enum Wanted {
    Nothing,
    One(Pair),
    Two(Pair, Pair),
}

// What a look at the top of the stack finds: a pair whose children are finished, with the option
// that it asks and the numbers of the high side and the low side; or what is wanted first.
#[derive(Clone, Copy, Debug, PartialEq, Eq)]
enum Seen {
    Ready(u16, u32, u32),
    Wants(Wanted),
}

// How many pairs wait, the number behind the last entry, and how many pairs are finished.
#[derive(Clone, Copy, Debug, PartialEq, Eq)]
struct State {
    height: usize,
    next: usize,
    count: usize,
}

// A decided pair is the terminal of its answer, a finished one the entry that the run has for it.
fn answer_of(table: &[u8], pairs: &[u32], p: Pair) -> Option<u32>
    requires { length table.now ≡ 9 }
    ensures { held.Searchable pairs.now → Replied table.now pairs.now p result }
{
    let decided = step::decide(table, p);
    if decided < 2 {
        return Some(decided as u32);
    }
    pair_run::find(pairs, p)
}

// What is still to be done for a pair that waits.
fn look(job: &Operands<'_>, work: &WorkingRuns<'_>, p: Pair) -> Seen
    requires { (length job.now.table.now ≡ 9) × (Within (set_of job.now.left) p.left × Within (set_of job.now.right) p.right) }
    ensures { held.Searchable work.now.pairs.now → Looked (job_of job.now) job.now.flips.output work.now.pairs.now p result }
{
    if pair_run::find(work.pairs, p).is_some() {
        return Seen::Wants(Wanted::Nothing);
    }
    let ways = step::ways_of(job, p);
    let near = ways.near;
    let other = ways.other;
    match (
        answer_of(job.table, work.pairs, near),
        answer_of(job.table, work.pairs, other),
    ) {
        (None, None) => Seen::Wants(Wanted::Two(near, other)),
        (None, Some(_)) => Seen::Wants(Wanted::One(near)),
        (Some(_), None) => Seen::Wants(Wanted::One(other)),
        (Some(x), Some(y)) => Seen::Ready(ways.ask, x, y),
    }
}

// What is wanted first goes on top of the stack, the child that becomes high last; where nothing
// is, the top is popped. How many pairs wait then.
fn restack(stack: &mut [u32], height: usize, wanted: Wanted) -> usize
    requires height_bound { (0 < height) × (height + 1 < length stack.old) }
    requires fits { Fits wanted }
    ensures { Stacked stack.old height wanted stack.new result }
{
    match wanted {
        Wanted::Nothing => height - 1,
        Wanted::One(child) => {
            step::push(stack, height, child);
            height + 1
        }
        Wanted::Two(near, other) => {
            step::push(stack, height, other);
            step::push(stack, height + 1, near);
            height + 2
        }
    }
}

// The pair is finished as the entry that is placed for it.
fn settle(
    work: &mut WorkingRuns<'_>,
    out: &mut OutputRuns<'_>,
    p: Pair,
    e: BddNode,
    next: usize,
    most: usize,
    count: usize,
) -> Option<Placed>
    requires bounds { (most ≤ most_entries) × (2 ≤ next) × (next ≤ max 2 most) × (most ≤ length work.old.index.now) }
    requires fit { Fit (output_of out.old) most }
    ensures same { SameOutput out.old out.new }
    ensures same_work { SameWorking work.old work.new }
    ensures kept { work.new.stack.now ≡ work.old.stack.now }
    ensures placing { (before : Runs) (es : List Entry)
        → Output most before work.old.index.now (output_of out.old) next es
        → Placing most before es (decide high_first e.variable e.high e.low es) work.new.index.now (output_of out.new) next result }
    ensures settling { Settleable work.old.pairs.now p count → Settling work.old.pairs.now work.new.pairs.now p result }
{
    let placed = index_run::place(work.index, out, e, next, most)?;
    pair_run::insert(work.pairs, p, placed.number, count);
    Some(placed)
}

// One look at the top of the stack. A pair is looked at up to three times: when it comes up, its
// children may be wanted first and it stays below them; once they are finished it is settled; and
// where it was put on the stack twice, the second time finds it finished. The child that becomes
// high goes on top, so that its entries are written before those of the other.
fn take_turn(
    job: &Operands<'_>,
    most: usize,
    out: &mut OutputRuns<'_>,
    work: &mut WorkingRuns<'_>,
    state: State,
) -> Option<State>
    requires { Rooms (job_of job.now) most (output_of out.old) work.old.pairs.now work.old.stack.now work.old.index.now
        × Underway (job_of job.now) job.now.flips.output most work.old.pairs.now work.old.stack.now work.old.index.now (output_of out.old) state }
    ensures same { SameOutput out.old out.new }
    ensures same_work { SameWorking work.old work.new }
    ensures turned { (before : Runs)
        → Exploring (job_of job.now) job.now.flips.output most before work.old.pairs.now work.old.stack.now work.old.index.now (output_of out.old) state
        → Turned (job_of job.now) job.now.flips.output most before (looks (job_of job.now) work.old.pairs.now work.old.stack.now state.height)
        work.new.pairs.now work.new.stack.now work.new.index.now (output_of out.new) result }
{
    let height = state.height;
    let next = state.next;
    let count = state.count;
    let top = step::pair_of(work.stack[height - 1]);
    match look(job, work, top) {
        Seen::Wants(wanted) => Some(State {
            height: restack(work.stack, height, wanted),
            next,
            count,
        }),
        Seen::Ready(variable, high, low) => {
            let e = BddNode {
                variable,
                low,
                high,
            };
            let placed = settle(work, out, top, e, next, most, count)?;
            Some(State {
                height: height - 1,
                next: placed.behind,
                count: count + 1,
            })
        }
    }
}

// Nothing waits, so the root is finished.
fn concluded(pairs: &[u32], root: Pair, next: usize) -> Option<Built>
    ensures { held.Searchable pairs.now → Concludes pairs.now root next result }
{
    let number = pair_run::find(pairs, root)?;
    Some(Built {
        number,
        behind: next,
    })
}

// The entries of the array behind the terminals, high side first, each once; whatever an earlier job
// left in the pair run and the index run. Nothing where the array is longer than `most`.
pub fn build(
    job: &Operands<'_>,
    most: usize,
    out: &mut OutputRuns<'_>,
    work: &mut WorkingRuns<'_>,
) -> Option<Built>
    requires { Prepared (job_of job.now) most (output_of out.old) work.old.pairs.now work.old.stack.now work.old.index.now }
    ensures same { SameOutput out.old out.new }
    ensures same_work { SameWorking work.old work.new }
    ensures outcome { Outcome (job_of job.now) job.now.flips.output most (output_of out.old) (output_of out.new) result }
{
    lent::clear(work.pairs);
    lent::clear(work.index);
    let root = step::roots(job.left.variable.len(), job.right.variable.len());
    step::push(work.stack, 0, root);
    let mut state = State {
        height: 1,
        next: 2,
        count: 0,
    };
    while 0 < state.height {
        state = take_turn(job, most, out, work, state)?;
    }
    concluded(work.pairs, root, state.next)
}
