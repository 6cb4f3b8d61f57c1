// The counting exploration of the operators (document 01, "Pairs, counts, sizes"; the Rust's
// estimated_apply_complexity): c and "can it hold". The pair run has the pairs in the order in which
// they were noted, so it is its own queue: a look takes the next noted pair and notes those of its two
// children that are undecided and new. c is the number of noted pairs once every one was looked at,
// whatever the order, so no stack is needed. The refusals 1 to 6 are tested before; as many pairs may
// be noted as the run has room for.
#![tactic(auto)]

ghost use Rattle.std.specs.Prelude.{◌≡◌, ◌<◌, length};
ghost use Rattle.bdd.specs.Pairs.{job_of, Checked, pair_room};
ghost use Rattle.step.specs.Step.{Small};
ghost use Rattle.complexity.specs.Counts.{Counts};
ghost use Rattle.noting.specs.Exploring.{Holds, Takes, Begun, Exploring, Leaves};

use bdd::{Operands, Pair};
use chains::Stored;
use complexity::Counted;

// How far it is: how many pairs were looked at, how many are noted, whether one was decided as on.
#[derive(Clone, Copy, Debug, PartialEq, Eq)]
struct State {
    done: usize,
    count: usize,
    on: bool,
}

// What taking a pair leads to: how many are noted then, and whether one was decided as on; which is no
// answer yet, as `Counted` is.
#[derive(Clone, Copy, Debug, PartialEq, Eq)]
struct Taken {
    count: usize,
    on: bool,
}

// The table decides the pair, or it is noted, unless it stands in the run already. Nothing where there is no room for it. Written out twice
// in each look, as `pair_run::insert` is.
#[inline(always)]
fn take(table: &[u8], pairs: &mut [u32], p: Pair, count: usize, on: bool) -> Option<Taken>
    requires table_len { length table.now ≡ 9 }
    requires holds { Holds pairs.old count }
    requires small { Small p }
    ensures { Takes table.now pairs.old pairs.new p count on result }
{
    let decision = step::decide(table, p);
    if decision != 2 {
        return Some(Taken {
            count,
            on: decision == 1 || on,
        });
    }
    match pair_run::insert(pairs, p, 0, count) {
        Stored::New => Some(Taken {
            count: count + 1,
            on,
        }),
        Stored::Known(_) => Some(Taken { count, on }),
        Stored::Full => None,
    }
}

// One look at the next noted pair: both its children are taken.
fn look(job: &Operands<'_>, pairs: &mut [u32], state: State) -> Option<State>
    requires { let j = job_of job.now in
        Checked j × (Exploring j pairs.old state × (state.done < state.count)) }
    ensures { Leaves (job_of job.now) pairs.old pairs.new state result }
{
    let p = pair_run::pair_at(pairs, state.done);
    let next = step::expand(job, p);
    let high = take(job.table, pairs, next.on, state.count, state.on)?;
    let low = take(job.table, pairs, next.off, high.count, high.on)?;
    Some(State {
        done: state.done + 1,
        count: low.count,
        on: low.on,
    })
}

// Counts on where `count` pairs stand in the run already, the root among them, all of them undecided
// and reached: none of them counts as looked at, so it begins with the first. Their results do not
// matter. What the pair run holds after it is left open.
pub fn count_on(job: &Operands<'_>, pairs: &mut [u32], count: usize) -> Option<Counted>
    requires checked { Checked (job_of job.now) }
    requires begun { Begun (job_of job.now) pairs.old count }
    ensures { Counts (job_of job.now) (pair_room pairs.old) result }
{
    let mut state = State {
        done: 0,
        count,
        on: false,
    };
    while state.done < state.count {
        state = look(job, pairs, state)?;
    }
    Some(Counted {
        pairs: state.count,
        on: state.on,
    })
}

// c and "can it hold", where the run has room for c pairs, whatever an earlier job left in it. What the
// pair run holds after it is left open.
pub fn estimated_apply_complexity(job: &Operands<'_>, pairs: &mut [u32]) -> Option<Counted>
    requires { Checked (job_of job.now) }
    ensures { Counts (job_of job.now) (pair_room pairs.old) result }
{
    let root = step::roots(job.left.variable.len(), job.right.variable.len());
    let decision = step::decide(job.table, root);
    if decision != 2 {
        return Some(Counted {
            pairs: 0,
            on: decision == 1,
        });
    }
    // no pair stands in the run then, so the root is new or there is no room for one
    pair_run::clear(pairs);
    match pair_run::insert(pairs, root, 0, 0) {
        Stored::New => count_on(job, pairs, 1),
        Stored::Known(_) => None,
        Stored::Full => None, // no room for one pair
    }
}
