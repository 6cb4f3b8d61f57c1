// The set is in the file of word 2, what is made of it goes to that of word 3, and the words behind say which options.
use bdd::{Answer, MOST_ENTRIES, OutputRuns, RuleSet, WorkingRuns};
use desk_jobs::files::Input;
use desk_jobs::runs::{Runs, Work};
use desk_jobs::{PAIRS, files, sets};
use desk_words::lines::Tails;
use desk_words::options;
use desk_words::options::{Form, Put};
use desk_words::outcome::Ended;
use desk_words::texts::Order;
use lent::STACK;
use restriction::RestrictionRuns;

// What is made of one option of a set. It is known before the runs are there that the call is lent, so it is data and no closure.
#[derive(Clone, Copy, Debug, PartialEq, Eq)]
enum Relation {
    Exists,
    ForAll,
    Select(bool),
}

fn relate(
    relation: Relation,
    v: u16,
    set: &RuleSet<'_>,
    out: &mut OutputRuns<'_>,
    work: &mut WorkingRuns<'_>,
) -> Answer {
    match relation {
        Relation::Exists => relation_ops::var_exists(set, v, out, work),
        Relation::ForAll => relation_ops::var_for_all(set, v, out, work),
        Relation::Select(value) => relation_ops::var_select(set, v, value, out, work),
    }
}

fn make_related(
    rt: &HostRuntime,
    relation: Relation,
    v: u16,
    input: &Input<'_>,
    pairs: &mut [u32; PAIRS],
) -> Ended {
    let mut out = Runs::new();
    let mut work = Work::new();
    let answer = relate(
        relation,
        v,
        &input.set,
        &mut out.output(),
        &mut work.lend(pairs),
    );
    files::finish(rt, answer, 3, Tails::one(input.tail), &out)
}

fn run(rt: &HostRuntime, relation: Relation, v: u16, pairs: &mut [u32; PAIRS]) -> Ended {
    let mut runs = Runs::new();
    let input = files::load(rt, 2, &mut runs)?;
    make_related(rt, relation, v, &input, pairs)
}

// desk exists IN OUT V.
pub fn exists(rt: &HostRuntime, pairs: &mut [u32; PAIRS]) -> Ended {
    let v = options::option(rt, 4)?;
    run(rt, Relation::Exists, v, pairs)
}

// desk forall IN OUT V.
pub fn for_all(rt: &HostRuntime, pairs: &mut [u32; PAIRS]) -> Ended {
    let v = options::option(rt, 4)?;
    run(rt, Relation::ForAll, v, pairs)
}

// desk select IN OUT V on|off.
pub fn select(rt: &HostRuntime, pairs: &mut [u32; PAIRS]) -> Ended {
    let v = options::option(rt, 4)?;
    let value = options::value(rt, 5)?;
    run(rt, Relation::Select(value), v, pairs)
}

// Where an option is n or more, the library is asked about it alone, so that the refusal is its own.
fn restricted(put: &Put, set: &RuleSet<'_>, out: &mut OutputRuns<'_>) -> Answer {
    let mut stack = [0u32; STACK];
    let mut index = [0u32; MOST_ENTRIES];
    let mut map = [0u32; MOST_ENTRIES];
    let mut work = RestrictionRuns {
        stack: &mut stack,
        index: &mut index,
        map: &mut map,
    };
    let n = sets::options_of(set);
    match put.beyond(n) {
        Some(v) => restriction::var_restrict(set, v, true, out, &mut work),
        None => restriction::restrict(set, put.values(n), out, &mut work),
    }
}

// What is said of the order of the set that was made.
fn order_of(answer: Answer, made: &Runs) -> Option<Order> {
    let entries = answer.ok()?;
    if sets::is_signed(&made.front(entries)) {
        Some(Order::Signing)
    } else {
        Some(Order::Other)
    }
}

fn make_restricted(rt: &HostRuntime, put: &Put, input: &Input<'_>) -> Ended {
    let mut out = Runs::new();
    let answer = restricted(put, &input.set, &mut out.output());
    let tails = Tails::one(input.tail).with_order(order_of(answer, &out));
    files::finish(rt, answer, 3, tails, &out)
}

// desk restrict IN OUT [V on|off]..
pub fn restrict(rt: &HostRuntime) -> Ended {
    let put = Put::read(rt, 4, Form::Valued)?;
    let mut runs = Runs::new();
    let input = files::load(rt, 2, &mut runs)?;
    make_restricted(rt, &put, &input)
}
