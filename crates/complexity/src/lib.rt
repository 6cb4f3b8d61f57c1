// The counting exploration by looks (document 01, "Pairs, counts, sizes"; the Rust's
// estimated_apply_complexity): c and "can it hold". A look takes the top pair off the stack; where
// the table does not decide it and it is new, it is noted in the pair run and its children wait.
// The refusals 1 to 6 are tested before. The dry runs count with `noting`, which answers with the same
// `Counted`; work in slices goes by these looks.
#![tactic(auto)]

ghost use Rattle.std.specs.Prelude.{◌≡◌, ◌+◌, ◌*◌, ◌<◌, ◌≤◌, ◌||◌, eqb, length};
ghost use Rattle.bdd.specs.Array.{options};
ghost use Rattle.bdd.specs.Lent.{set_of};
ghost use Rattle.bdd.specs.Pairs.{job_of, Checked, pair_room};
ghost use Rattle.step.specs.Step.{Small};
ghost use Rattle.complexity.specs.Counts.{Counts};
ghost use Rattle.complexity.specs.Exploring.{Holds, Notes, pushed, Exploring, Leaves};

use bdd::{Operands, Pair};
use chains::Stored;
use step::Children;

// What the exploration found: c and "can it hold".
#[derive(Clone, Copy, Debug, PartialEq, Eq)]
pub struct Counted {
    pub pairs: usize,
    pub on: bool,
}

// How far it is: the stack's height, how many pairs are noted, whether one was decided as on.
#[derive(Clone, Copy, Debug, PartialEq, Eq)]
struct State {
    height: usize,
    count: usize,
    on: bool,
}

// What becomes of an undecided pair: noted now, noted before, or one too many. `Stored` would bring a
// result that no one reads.
#[derive(Clone, Copy, Debug, PartialEq, Eq)]
enum Noted {
    New,
    Known,
    Full,
}

// As many pairs are noted as are allowed, so a new one is one too many.
fn known(pairs: &[u32], p: Pair, most: usize) -> Noted
    requires { Holds most pairs.now most }
    ensures { Notes most pairs.now pairs.now p most result }
{
    match pair_run::find(pairs, p) {
        Some(_) => Noted::Known,
        None => Noted::Full,
    }
}

// One search of the pair run for "is it known" and "note it".
fn note(pairs: &mut [u32], p: Pair, count: usize, most: usize) -> Noted
    requires holds { Holds most pairs.old count }
    requires small { Small p }
    ensures { Notes most pairs.old pairs.new p count result }
{
    if count == most {
        return known(pairs, p, most);
    }
    match pair_run::insert(pairs, p, 0, count) {
        Stored::New => Noted::New,
        Stored::Known(_) => Noted::Known,
        Stored::Full => Noted::Full,
    }
}

// The high child on top, as the Rust has it without an output flip.
fn push_both(stack: &mut [u32], at: usize, next: Children)
    requires at_in_bounds { at + 1 < length stack.old }
    requires small_off { Small next.off }
    requires small_on { Small next.on }
    ensures { stack.new ≡ pushed stack.old at next }
{
    step::push(stack, at, next.off);
    step::push(stack, at + 1, next.on);
}

// Whether a pair was decided as on, by now.
fn held(decision: u8, on: bool) -> bool
    ensures { result ≡ (eqb decision 1 || on) }
{
    decision == 1 || on
}

// One look at the stack's top: the next state, or nothing where there is a pair more than allowed.
fn look(
    job: &Operands<'_>,
    most: usize,
    pairs: &mut [u32],
    stack: &mut [u32],
    state: State,
) -> Option<State>
    requires { let j = job_of job.now in
        Checked j × (Exploring j most pairs.old stack.old state × (0 < state.height)) }
    ensures { Leaves (job_of job.now) most state pairs.new stack.new result }
{
    let at = state.height - 1;
    let count = state.count;
    let on = state.on;
    let p = step::waiting(stack, at);
    let decision = step::decide(job.table, p);
    if decision != 2 {
        return Some(State {
            height: at,
            count,
            on: held(decision, on),
        });
    }
    match note(pairs, p, count, most) {
        Noted::Full => None,
        Noted::Known => Some(State {
            height: at,
            count,
            on,
        }),
        Noted::New => {
            push_both(stack, at, step::expand(job, p));
            Some(State {
                height: at + 2,
                count: count + 1,
                on,
            })
        }
    }
}

// c and "can it hold", where c is at most `most`, whatever an earlier job left in the pair run.
// What the two working runs hold after it is left open.
pub fn estimated_apply_complexity(
    job: &Operands<'_>,
    most: usize,
    pairs: &mut [u32],
    stack: &mut [u32],
) -> Option<Counted>
    requires checked { Checked (job_of job.now) }
    requires most_bound { most ≤ pair_room pairs.old }
    requires stack_room { 2 * options (set_of job.now.left) + 1 ≤ length stack.old }
    ensures { Counts (job_of job.now) most result }
{
    lent::clear(pairs);
    let root = step::roots(job.left.variable.len(), job.right.variable.len());
    step::push(stack, 0, root);
    let mut state = State {
        height: 1,
        count: 0,
        on: false,
    };
    while 0 < state.height {
        state = look(job, most, pairs, stack, state)?;
    }
    Some(Counted {
        pairs: state.count,
        on: state.on,
    })
}
