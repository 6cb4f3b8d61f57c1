// The exploration that builds an operator's array (the loop of apply_with_flip and
// apply_with_flip_and_limit), done once: depth first, the child that becomes high before the other. A
// pair is entered in the pair run when it is first met, with the option that it asks in the place of its
// result, and is open then; an open pair is a frame of two numbers on the stack. When both its children
// have ended, its entry is placed, and the number of the entry is its result. As each child asks a
// greater option, a pair that is met again has ended. A pair more than the run has room for is 7 at
// once; where the array gets too long the pairs are counted on, since 7 comes before 8 and 9. The
// terminals are left to the caller, who has made the checks: `Admissible` of specs/Apply.antt says what
// they come to.
#![tactic(auto)]

ghost use Rattle.bdd.specs.Lent.{Flip, output_of, SameOutput, SameWorking};
ghost use Rattle.std.specs.Prelude.{◌≡◌, List, ℕ, ◌+◌, ◌*◌, ◌^◌, ◌<◌, ◌≤◌, max, length};
ghost use Rattle.bdd.specs.Bounds.{most_entries};
ghost use Rattle.bdd.specs.Array.{Entry, Runs, options};
ghost use Rattle.bdd.specs.Signed.{decide, high_first};
ghost use Rattle.bdd.specs.Pairs.{Job, job_of, Checked};
ghost use Rattle.pair_run.specs.Held.{nodes, result_at, Searchable};
ghost use Rattle.index_run.specs.Placing.{Fit, Output, Placing};
ghost use Rattle.step.specs.Step.{code, Small};
ghost use Rattle.noting.specs.Exploring.{Begun};
ghost use Rattle.apply.specs.Frames.{framed};
ghost use Rattle.apply.specs.Awaiting.{Awaits, Due, left, Meets, Descends, Settling, Ended, Upward, Rises};
ghost use Rattle.apply.specs.Apply.{Admissible, Explores, CountedOn};

use bdd::{BddNode, Operands, OutputRuns, Pair, WorkingRuns};
use chains::Stored;
use ending::Explored;
use index_run::Placed;

// What became of a pair that is awaited: it has ended, as this entry or terminal; it is open now, and
// this child is awaited first; or it is a pair too many.
#[derive(Clone, Copy, Debug, PartialEq, Eq)]
enum Met {
    Known(u32),
    Open(Pair),
    Full,
}

// Where the way down ended: at a pair that has ended as this entry or terminal, with so many pairs open
// and so many entered.
#[derive(Clone, Copy, Debug, PartialEq, Eq)]
struct Descent {
    number: u32,
    depth: usize,
    count: usize,
}

// Where the way up ended: the pair of this number of the stack is awaited next, with so many open and the
// number behind the last entry; the root has ended, with its number and that number; or an entry is one
// too many.
#[derive(Clone, Copy, Debug, PartialEq, Eq)]
enum Ascent {
    Await(u32, usize, usize),
    Root(u32, usize),
    Long,
}

// One frame more: the open pair's node, and its other child, which waits for the first to end.
fn push(stack: &mut [u32], depth: usize, node: usize, other: Pair)
    requires { (2 * depth + 1 < length stack.old) × (node < 2 ^ 31) × Small other }
    ensures { stack.new ≡ framed stack.old depth (2 * node) (code other) }
{
    stack[2 * depth] = 2 * node as u32;
    step::push(stack, 2 * depth + 1, other);
}

// A pair that is undecided is looked up once: it has ended before, or it is entered now.
fn meet(
    job: &Operands<'_>,
    pairs: &mut [u32],
    stack: &mut [u32],
    p: Pair,
    depth: usize,
    count: usize,
) -> Met
    requires { Due (job_of job.now) job.now.flips.output pairs.old stack.old depth count p }
    ensures { (es : List Entry) → Awaits (job_of job.now) job.now.flips.output pairs.old stack.old depth count p es
        → Meets (job_of job.now) job.now.flips.output pairs.old pairs.new stack.new depth count
        (left pairs.old stack.old depth count) es result }
{
    let decision = step::decide(job.table, p);
    if decision < 2 {
        return Met::Known(decision as u32);
    }
    let ask = step::asked(job.left.variable, job.right.variable, p);
    match pair_run::insert(pairs, p, ask as u32, count) {
        Stored::Known(v) => Met::Known(v),
        Stored::Full => Met::Full,
        Stored::New => {
            let ways = step::ways_of(job, p);
            push(stack, depth, count, step::apart(ways.other));
            Met::Open(step::apart(ways.near))
        }
    }
}

// Down along the children that become high, until one has ended. Nothing where a pair is one too many.
fn descend(
    job: &Operands<'_>,
    pairs: &mut [u32],
    stack: &mut [u32],
    from: Pair,
    opened: usize,
    entered: usize,
) -> Option<Descent>
    requires { Due (job_of job.now) job.now.flips.output pairs.old stack.old opened entered from }
    ensures { (es : List Entry) → Awaits (job_of job.now) job.now.flips.output pairs.old stack.old opened entered from es
        → Descends (job_of job.now) job.now.flips.output pairs.old pairs.new stack.new
        (left pairs.old stack.old opened entered) es result }
{
    let mut p = from;
    let mut depth = opened;
    let mut count = entered;
    loop {
        match meet(job, pairs, stack, p, depth, count) {
            Met::Full => return None,
            Met::Known(number) => {
                return Some(Descent {
                    number,
                    depth,
                    count,
                });
            }
            Met::Open(near) => {
                p = step::apart(near);
                depth += 1;
                count += 1;
            }
        }
    }
}

// Both children of the pair at a node have ended, the one that becomes high as x: its entry is placed,
// and the pair has ended as that.
fn settle(
    pairs: &mut [u32],
    index: &mut [u32],
    out: &mut OutputRuns<'_>,
    node: usize,
    x: u32,
    y: u32,
    next: usize,
    most: usize,
) -> Option<Placed>
    requires node_bound { node < nodes pairs.old }
    requires bounds { (most ≤ most_entries) × (2 ≤ next) × (next ≤ max 2 most) × (most ≤ length index.old) }
    requires fit { Fit (output_of out.old) most }
    ensures same { SameOutput out.old out.new }
    ensures placing { (before : Runs) (es : List Entry)
        → Output most before index.old (output_of out.old) next es
        → Placing most before es (decide high_first (result_at (nodes pairs.old) pairs.old node) x y es)
        index.new (output_of out.new) next result }
    ensures settling { Searchable pairs.old → Settling pairs.old pairs.new node result }
{
    let e = BddNode {
        variable: pair_run::result_of(pairs, node) as u16,
        low: y,
        high: x,
    };
    let placed = index_run::place(index, out, e, next, most)?;
    pair_run::set_result(pairs, node, placed.number);
    Some(placed)
}

// Up from a child that has ended: a pair whose first child that was awaits its other one now; one whose
// other child that was ends, and the way goes on.
fn ascend(
    work: &mut WorkingRuns<'_>,
    out: &mut OutputRuns<'_>,
    ended: u32,
    opened: usize,
    behind: usize,
    most: usize,
) -> Ascent
    requires upward { Upward most work.old.pairs.now work.old.stack.now work.old.index.now (output_of out.old) opened ended behind }
    requires bounds { (most ≤ most_entries) × (most ≤ length work.old.index.now) × Fit (output_of out.old) most }
    ensures same { SameOutput out.old out.new }
    ensures same_work { SameWorking work.old work.new }
    ensures rises { (j : Job) (flip : Flip) (before : Runs) (entered : ℕ) (es : List Entry)
        → Ended j flip work.old.pairs.now work.old.stack.now opened entered ended es
        → Output most before work.old.index.now (output_of out.old) behind es
        → Rises j flip most before entered (left work.old.pairs.now work.old.stack.now opened entered)
        work.new.pairs.now work.new.stack.now work.new.index.now (output_of out.new) result }
{
    let mut v = ended;
    let mut depth = opened;
    let mut next = behind;
    while 0 < depth {
        let at = 2 * depth - 2;
        let first = work.stack[at];
        let waits = work.stack[at + 1];
        if first % 2 == 0 {
            work.stack[at] = first + 1;
            work.stack[at + 1] = v;
            return Ascent::Await(waits, depth, next);
        }
        let node = first as usize / 2;
        let Some(placed) = settle(work.pairs, work.index, out, node, waits, v, next, most) else {
            return Ascent::Long;
        };
        v = placed.number;
        next = placed.behind;
        depth -= 1;
    }
    Ascent::Root(v, next)
}

// The array is too long, which is 8 or 9 unless there are more pairs than there is room for.
fn too_long(job: &Operands<'_>, pairs: &mut [u32], count: usize) -> Explored
    requires checked { Checked (job_of job.now) }
    requires begun { Begun (job_of job.now) pairs.old count }
    ensures { CountedOn (job_of job.now) pairs.old result }
{
    match noting::count_on(job, pairs, count) {
        None => Explored::NoPairRoom,
        Some(_) => Explored::Long,
    }
}

// The entries of the array behind the terminals, high side first, each once; or that there are more
// pairs than the run has room for, or else that the array is longer than `most`. What an earlier job left
// in the working runs does not matter: the places of the pair run and the index are cleared first.
pub fn apply_with_flip_and_limit(
    job: &Operands<'_>,
    most: usize,
    out: &mut OutputRuns<'_>,
    work: &mut WorkingRuns<'_>,
) -> Explored
    requires { Admissible (job_of job.now) most (output_of out.old) work.old.stack.now work.old.index.now }
    ensures same { SameOutput out.old out.new }
    ensures same_work { SameWorking work.old work.new }
    ensures explores { Explores (job_of job.now) job.now.flips.output most (output_of out.old) (output_of out.new) work.old.pairs.now result }
{
    // One pair is remembered even where the roots are decided.
    if work.pairs.len() < 4 {
        return Explored::NoPairRoom;
    }
    pair_run::clear(work.pairs);
    lent::clear(work.index);
    let mut p = step::roots(job.left.variable.len(), job.right.variable.len());
    let mut depth = 0;
    let mut count = 0;
    let mut next = 2;
    loop {
        let Some(down) = descend(job, work.pairs, work.stack, p, depth, count) else {
            return Explored::NoPairRoom;
        };
        match ascend(work, out, down.number, down.depth, next, most) {
            Ascent::Root(root, behind) => return Explored::Array(root, behind),
            Ascent::Long => return too_long(job, work.pairs, down.count),
            Ascent::Await(waits, higher, behind) => {
                p = step::pair_of(waits);
                depth = higher;
                count = down.count;
                next = behind;
            }
        }
    }
}
