// The steps of picking (document 01, module 7): each reads its sets where they stand, the given one or a slot of the spare runs, writes
// into the output, and its array is then kept in a slot. What is lent goes as four values, since most calls below lend some of them
// alone: one struct would be taken apart and made anew at each.
#![tactic(auto)]

ghost use Rattle.bdd.specs.Lent.{set_of, output_of, SameOutput, SameWorking, no_flip};
ghost use Rattle.std.specs.Prelude.{◌≡◌, take, drop, false};
ghost use Rattle.bdd.specs.Array.{entries_of};
ghost use Rattle.bdd.specs.Operations.{working_of};
ghost use Rattle.bdd.specs.Pairs.{job, room};
ghost use Rattle.operators.specs.Numbered.{numbered};
ghost use Rattle.relation_ops.specs.Relations.{selection};
ghost use Rattle.relation_ops.specs.Picking.{step, copy_checks, relation_step, operator_step};
ghost use Rattle.slots.specs.Slots.{set_at, pasted, kept, copied_runs, size_told, Whole, Slots, Leaves};

use bdd::{Answer, Flip, Flips, OutputRuns, Refusal, RuleSet, WorkingRuns};

// Where a set stands: it is the given one, or `size` entries of the spare runs from place `at` on.
#[derive(Clone, Copy, Debug, PartialEq, Eq)]
pub enum Place {
    Given,
    Slot { at: usize, size: usize },
}

pub fn part<N>(run: &[N], at: usize, size: usize) -> &[N]
    ensures { result.now ≡ take size (drop at run.now) }
{
    if at <= run.len() {
        return lent::front(&run[at..], size);
    }
    &run[..0]
}

// The set that stands at a place.
fn stands<'a>(place: Place, given: &RuleSet<'a>, spare: &RuleSet<'a>) -> RuleSet<'a>
    ensures { set_of result ≡ set_at place (set_of given.now) (set_of spare.now) }
{
    match place {
        Place::Given => *given,
        Place::Slot { at, size } => RuleSet {
            variable: part(spare.variable, at, size),
            low: part(spare.low, at, size),
            high: part(spare.high, at, size),
        },
    }
}

// The first s numbers of a run into another, from place t on.
fn paste<N: Copy>(run: &mut [N], from: &[N], t: usize, s: usize)
    ensures { run.new ≡ pasted t s from.now run.old }
{
    if t <= run.len() {
        lent::copy(&mut run[t..], from, s);
    }
}

// The first s entries of a set, kept at place t.
pub fn keep(from: &RuleSet<'_>, t: usize, s: usize, spare: &mut OutputRuns<'_>)
    ensures same { SameOutput spare.old spare.new }
    ensures kept { output_of spare.new ≡ kept t s (set_of from.now) (output_of spare.old) }
{
    paste(spare.variable, from.variable, t, s);
    paste(spare.low, from.low, t, s);
    paste(spare.high, from.high, t, s);
}

fn size_of(answer: Answer) -> usize
    ensures { result ≡ size_told answer }
{
    answer.unwrap_or(0)
}

// The operator p on two sets, the right one flipped, its array kept at place t.
pub fn operate_at(
    p: u8,
    left: Place,
    right: Place,
    flip: Flip,
    t: usize,
    set: &RuleSet<'_>,
    out: &mut OutputRuns<'_>,
    work: &mut WorkingRuns<'_>,
    spare: &mut OutputRuns<'_>,
) -> Answer
    requires { Slots 1 (room (output_of out.old)) t (output_of spare.old) }
    ensures same { SameOutput out.old out.new }
    ensures same_work { SameWorking work.old work.new }
    ensures same_spare { SameOutput spare.old spare.new }
    ensures leaves { Leaves
        (operator_step (working_of work.old) (room (output_of out.old))
        (job (set_at left (set_of set.now) (output_of spare.old)) (set_at right (set_of set.now) (output_of spare.old)) (numbered p) no_flip flip))
        t (output_of out.old) (output_of out.new) (output_of spare.old) (output_of spare.new) result }
{
    let slots = spare.as_set();
    let flips = Flips {
        left: None,
        right: flip,
        output: None,
    };
    let answer = operators::numbered_flip_op(
        p,
        &stands(left, set, &slots),
        &stands(right, set, &slots),
        flips,
        out,
        work,
    );
    keep(&out.as_set(), t, size_of(answer), spare);
    answer
}

// The set where the option is off, kept at place t.
pub fn select_off_at(
    place: Place,
    v: u16,
    t: usize,
    set: &RuleSet<'_>,
    out: &mut OutputRuns<'_>,
    work: &mut WorkingRuns<'_>,
    spare: &mut OutputRuns<'_>,
) -> Answer
    requires { Slots 1 (room (output_of out.old)) t (output_of spare.old) }
    ensures same { SameOutput out.old out.new }
    ensures same_work { SameWorking work.old work.new }
    ensures same_spare { SameOutput spare.old spare.new }
    ensures leaves { Leaves
        (relation_step (working_of work.old) (room (output_of out.old))
        (selection (set_at place (set_of set.now) (output_of spare.old)) v false))
        t (output_of out.old) (output_of out.new) (output_of spare.old) (output_of spare.new) result }
{
    let at = stands(place, set, &spare.as_set());
    let answer = relation_ops::var_select(&at, v, false, out, work);
    keep(&out.as_set(), t, size_of(answer), spare);
    answer
}

// The first s entries of a set as they are, into the output.
fn copy_out(set: &RuleSet<'_>, s: usize, out: &mut OutputRuns<'_>)
    ensures same { SameOutput out.old out.new }
    ensures copied { output_of out.new ≡ copied_runs (output_of out.old) (set_of set.now) s }
{
    lent::copy(out.variable, set.variable, s);
    lent::copy(out.low, set.low, s);
    lent::copy(out.high, set.high, s);
}

// With no option to pick: the set as it is, kept at place t.
pub fn copy_at(
    place: Place,
    t: usize,
    set: &RuleSet<'_>,
    out: &mut OutputRuns<'_>,
    spare: &mut OutputRuns<'_>,
) -> Answer
    requires whole { Whole (set_at place (set_of set.now) (output_of spare.old)) }
    requires slots { Slots 1 (room (output_of out.old)) t (output_of spare.old) }
    ensures same { SameOutput out.old out.new }
    ensures same_spare { SameOutput spare.old spare.new }
    ensures leaves { Leaves
        (step (room (output_of out.old)) copy_checks (entries_of (set_at place (set_of set.now) (output_of spare.old))))
        t (output_of out.old) (output_of out.new) (output_of spare.old) (output_of spare.new) result }
{
    let at = stands(place, set, &spare.as_set());
    let size = at.variable.len();
    if lent::room(out) < size {
        return Err(Refusal::NoRoom);
    }
    copy_out(&at, size, out);
    keep(&out.as_set(), t, size, spare);
    Ok(size)
}
