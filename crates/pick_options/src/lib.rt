// The recursion of picking over the picked options (document 01, module 7). Its array is left in a slot of the spare runs; nothing that
// stands before it is touched. What is lent goes as four values, as in `slots`.
#![tactic(auto)]

ghost use Rattle.bdd.specs.Lent.{set_of, output_of, SameOutput, SameWorking};
ghost use Rattle.bdd.specs.Operations.{working_of};
ghost use Rattle.std.specs.Prelude.{length};
ghost use Rattle.bdd.specs.Pairs.{room};
ghost use Rattle.relation_ops.specs.Picking.{pick_steps};
ghost use Rattle.marks.specs.Marking.{marked_options};
ghost use Rattle.slots.specs.Slots.{set_at, Leaves};
ghost use Rattle.pick_steps.specs.Sequences.{Ready};

use bdd::{Answer, OutputRuns, RuleSet, WorkingRuns};
use marks::Marks;
use slots::Place;

// The greatest option is quantified away, the rest is picked one slot on, and both are joined; with no option the set is copied.
pub fn pick_at(
    place: Place,
    marks: Marks,
    w: usize,
    t: usize,
    set: &RuleSet<'_>,
    out: &mut OutputRuns<'_>,
    work: &mut WorkingRuns<'_>,
    spare: &mut OutputRuns<'_>,
) -> Answer
    requires { Ready place (length (marked_options marks)) w t (set_of set.now) (output_of out.old) (output_of spare.old) }
    ensures same { SameOutput out.old out.new }
    ensures same_work { SameWorking work.old work.new }
    ensures same_spare { SameOutput spare.old spare.new }
    ensures leaves { Leaves
        (pick_steps (working_of work.old) (room (output_of out.old)) (marked_options marks) (set_at place (set_of set.now) (output_of spare.old)))
        t (output_of out.old) (output_of out.new) (output_of spare.old) (output_of spare.new) result }
{
    let Some(v) = marks::greatest(marks) else {
        return slots::copy_at(place, t, set, out, spare);
    };
    let s = slots::operate_at(14, place, place, Some(v), t, set, out, work, spare)?;
    let left = Place::Slot { at: t, size: s };
    let others = marks::without(marks, v);
    let rest = pick_at(left, others, w, t + w, set, out, work, spare)?;
    pick_steps::join_at(place, v, w, t, rest, set, out, work, spare)
}
