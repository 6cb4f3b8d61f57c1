// The exploration that builds a restricted array (the loop of `restriction`): one entry is looked at
// while others wait on a stack, the map run tells which are finished and as which new entry, the
// index run which new entry stands under which number. Where an option is fixed, both sides of an
// entry are its chosen link, so that nothing is written for it. The low side goes first, as in the
// Rust.
ghost use Rattle.restriction.specs.Restricts.{SameRuns};
ghost use Rattle.std.specs.Prelude.{◌≡◌, ℕ, ◌<◌, ◌≤◌, max, List, length};
ghost use Rattle.bdd.specs.Bounds.{most_entries};
ghost use Rattle.bdd.specs.Array.{Entry, Runs, options};
ghost use Rattle.bdd.specs.Lent.{set_of, output_of, SameOutput};
ghost use Rattle.bdd.specs.Signed.{decide, low_first};
ghost use Rattle.index_run.specs.Placing.{Fit, Output, Placing};
ghost use Rattle.ending.specs.Ends.{Comes};
ghost use Rattle.restriction.specs.Exploring.{Checked, Rooms, restricted_value, opened, Leads, Replied, Within, Sighted, Looked, Settling, popped, Exploring, Underway, Turned, Concludes, looks};

use crate::RestrictionRuns;
use bdd::{BddNode, OutputRuns, RuleSet};
use ending::Explored;
use index_run::Placed;

// What is restricted: a set, and the value of each of its options.
#[derive(Clone, Copy)]
pub(crate) struct Restricted<'a> {
    pub(crate) set: RuleSet<'a>,
    pub(crate) values: &'a [u8],
}

// What a look at an entry finds: that it is finished; a link that must be finished before it; or that
// both are, and so the new entry, of the option that it asks and the numbers of its two sides.
#[derive(Clone, Copy, Debug, PartialEq, Eq)]
enum Seen {
    Finished,
    Wants(u32),
    Ready(BddNode),
}

// The entry that is looked at, how many entries are not done with it, and the number behind the last
// new entry. That entry is kept out of the stack, whose first place is not used.
#[derive(Clone, Copy, Debug, PartialEq, Eq)]
struct State {
    top: u32,
    height: usize,
    next: usize,
}

// An entry as it leads on: a fixed option leads to the chosen link on both sides.
fn links_of(job: &Restricted<'_>, i: u32) -> BddNode
    requires { Within (set_of job.now.set) job.now.values.now i }
    ensures { Leads (set_of job.now.set) job.now.values.now i result }
{
    let at = i as usize;
    let variable = job.set.variable[at];
    let low = job.set.low[at];
    let high = job.set.high[at];
    match job.values[variable as usize] {
        2 => BddNode {
            variable,
            low,
            high,
        },
        1 => BddNode {
            variable,
            low: high,
            high,
        },
        _ => BddNode {
            variable,
            low,
            high: low,
        },
    }
}

// Nothing is finished but the terminals, each as itself.
fn open_map(map: &mut [u32])
    requires { 2 ≤ length map.old }
    ensures { map.new ≡ opened map.old }
{
    lent::clear(map);
    map[0] = 1;
    map[1] = 2;
}

// A finished entry is the new entry that the map run has for it, counted from 1, so that 0 is none: a
// lent run has room for plain numbers alone.
fn reply(map: &[u32], i: u32) -> Option<u32>
    requires { i < length map.now }
    ensures { Replied map.now i result }
{
    match map[i as usize] {
        0 => None,
        held => Some(held - 1),
    }
}

// What is still to be done for an entry. Where both sides are one link, one reply is enough.
fn look(job: &Restricted<'_>, work: &RestrictionRuns<'_>, i: u32) -> Seen
    requires { Sighted (set_of job.now.set) job.now.values.now work.now.map.now i }
    ensures { Looked (set_of job.now.set) job.now.values.now work.now.map.now i result }
{
    if work.map[i as usize] != 0 {
        return Seen::Finished;
    }
    let links = links_of(job, i);
    let Some(low) = reply(work.map, links.low) else {
        return Seen::Wants(links.low);
    };
    if links.low == links.high {
        return Seen::Ready(BddNode {
            low,
            high: low,
            ..links
        });
    }
    let Some(high) = reply(work.map, links.high) else {
        return Seen::Wants(links.high);
    };
    Seen::Ready(BddNode { low, high, ..links })
}

// Entry i is finished as the new entry e, which is placed.
fn settle(
    out: &mut OutputRuns<'_>,
    work: &mut RestrictionRuns<'_>,
    i: u32,
    e: BddNode,
    next: usize,
    most: usize,
) -> Option<Placed>
    requires bounds { (most ≤ most_entries) × (2 ≤ next) × (next ≤ max 2 most) × (most ≤ length work.old.index.now) }
    requires fit { Fit (output_of out.old) most }
    requires i_in_bounds { i < length work.old.map.now }
    ensures same { SameOutput out.old out.new }
    ensures same_work { SameRuns work.old work.new }
    ensures placing { ((before : Runs) (es : List Entry)
        → Output most before work.old.index.now (output_of out.old) next es
        → Placing most before es (decide low_first e.variable e.low e.high es) work.new.index.now (output_of out.new) next result) }
    ensures waiting { work.new.stack.now ≡ work.old.stack.now }
    ensures settling { Settling work.old.map.now work.new.map.now i result }
{
    let placed = index_run::place(work.index, out, e, next, most)?;
    work.map[i as usize] = placed.number.wrapping_add(1);
    Some(placed)
}

// The entry that waits on top of the stack is looked at next.
fn pop(work: &RestrictionRuns<'_>, height: usize, next: usize) -> State
    requires { (0 < height) × (height ≤ length work.now.stack.now) }
    ensures { result ≡ popped work.now.stack.now height next }
{
    State {
        top: work.stack[height - 1],
        height: height - 1,
        next,
    }
}

// One look at an entry. It waits below the link that it wants, and is settled when both are finished.
fn take_turn(
    job: &Restricted<'_>,
    most: usize,
    out: &mut OutputRuns<'_>,
    work: &mut RestrictionRuns<'_>,
    state: State,
) -> Option<State>
    requires { let a = set_of job.now.set in
        let w = work.old in
        Rooms a most (output_of out.old) w.stack.now w.index.now w.map.now
        × Underway a job.now.values.now most w.stack.now w.index.now w.map.now (output_of out.old) state }
    ensures same { SameOutput out.old out.new }
    ensures same_work { SameRuns work.old work.new }
    ensures turned { (let a = set_of job.now.set in
        let w = work.old in
        let left = looks a w.map.now state in
        ((before : Runs)
        → Exploring a job.now.values.now most before w.stack.now w.index.now w.map.now (output_of out.old) state
        → Turned a job.now.values.now most before left work.new.stack.now work.new.index.now work.new.map.now (output_of out.new) result)) }
{
    let height = state.height;
    match look(job, work, state.top) {
        Seen::Finished => Some(pop(work, height, state.next)),
        Seen::Wants(link) => {
            work.stack[height] = state.top;
            Some(State {
                top: link,
                height: height + 1,
                next: state.next,
            })
        }
        Seen::Ready(e) => {
            let placed = settle(out, work, state.top, e, state.next, most)?;
            Some(pop(work, height, placed.behind))
        }
    }
}

// Nothing waits, so the root is finished.
fn concluded(map: &[u32], root: u32, next: usize) -> Explored
    requires { root < length map.now }
    ensures { Concludes map.now root next result }
{
    let Some(number) = reply(map, root) else {
        return Explored::Long;
    };
    Explored::Array(number, next)
}

// The entries of the array behind the terminals, low side first, each once; whatever an earlier job
// left in the working runs. A terminal is restricted to itself.
pub(crate) fn explore(
    job: &Restricted<'_>,
    most: usize,
    out: &mut OutputRuns<'_>,
    work: &mut RestrictionRuns<'_>,
) -> Explored
    requires { let w = work.old in
        Checked (set_of job.now.set) job.now.values.now × Rooms (set_of job.now.set) most (output_of out.old) w.stack.now w.index.now w.map.now }
    ensures same { SameOutput out.old out.new }
    ensures same_work { SameRuns work.old work.new }
    ensures comes { let a = set_of job.now.set in
        Comes low_first (options a) (restricted_value a job.now.values.now) most (output_of out.old) (output_of out.new) result }
{
    let root = (job.set.variable.len() - 1) as u32;
    if root < 2 {
        return Explored::Array(root, 2);
    }
    lent::clear(work.index);
    open_map(work.map);
    let mut state = State {
        top: root,
        height: 1,
        next: 2,
    };
    while 0 < state.height {
        let Some(further) = take_turn(job, most, out, work, state) else {
            return Explored::Long;
        };
        state = further;
    }
    concluded(work.map, root, state.next)
}
