// The sequences of steps of picking (document 01, module 7): `var_pick`, and its join with what is picked of the rest. Each leaves its
// array in a slot of the spare runs; nothing that stands before it is touched. What is lent goes as four values, as
// in `slots`.
#![tactic(auto)]

ghost use Rattle.bdd.specs.Lent.{set_of, output_of, SameOutput, SameWorking};
ghost use Rattle.bdd.specs.Operations.{working_of};
ghost use Rattle.std.specs.Prelude.{◌+◌};
ghost use Rattle.bdd.specs.Pairs.{room};
ghost use Rattle.relation_ops.specs.Picking.{var_pick_steps};
ghost use Rattle.slots.specs.Slots.{set_at, part, Slots, Below, Leaves};
ghost use Rattle.pick_steps.specs.Sequences.{joined_steps, Joins};

use bdd::{Answer, OutputRuns, RuleSet, WorkingRuns};
use slots::Place;

// The steps of `var_pick`: what is off, then the set and not that, flipped at the option.
pub fn var_pick_at(
    place: Place,
    v: u16,
    t: usize,
    set: &RuleSet<'_>,
    out: &mut OutputRuns<'_>,
    work: &mut WorkingRuns<'_>,
    spare: &mut OutputRuns<'_>,
) -> Answer
    requires below { Below place t }
    requires slots { Slots 1 (room (output_of out.old)) t (output_of spare.old) }
    ensures same { SameOutput out.old out.new }
    ensures same_work { SameWorking work.old work.new }
    ensures same_spare { SameOutput spare.old spare.new }
    ensures leaves { Leaves
        (var_pick_steps (working_of work.old) (room (output_of out.old)) (set_at place (set_of set.now) (output_of spare.old)) v)
        t (output_of out.old) (output_of out.new) (output_of spare.old) (output_of spare.new) result }
{
    let s = slots::select_off_at(place, v, t, set, out, work, spare)?;
    let off = Place::Slot { at: t, size: s };
    slots::operate_at(4, place, off, Some(v), t, set, out, work, spare)
}

// The steps of `var_pick` two slots on; then the and of what is picked of the rest, one slot on, and of that.
pub fn join_at(
    place: Place,
    v: u16,
    w: usize,
    t: usize,
    rest: usize,
    set: &RuleSet<'_>,
    out: &mut OutputRuns<'_>,
    work: &mut WorkingRuns<'_>,
    spare: &mut OutputRuns<'_>,
) -> Answer
    requires { Joins place w rest t (output_of out.old) (output_of spare.old) }
    ensures same { SameOutput out.old out.new }
    ensures same_work { SameWorking work.old work.new }
    ensures same_spare { SameOutput spare.old spare.new }
    ensures leaves { Leaves
        (joined_steps (working_of work.old) (room (output_of out.old)) (set_at place (set_of set.now) (output_of spare.old)) v
        (part (t + w) rest (output_of spare.old)))
        t (output_of out.old) (output_of out.new) (output_of spare.old) (output_of spare.new) result }
{
    let near = t + w;
    let far = near + w;
    let one = var_pick_at(place, v, far, set, out, work, spare)?;
    let others = Place::Slot {
        at: near,
        size: rest,
    };
    let last = Place::Slot { at: far, size: one };
    slots::operate_at(8, others, last, None, t, set, out, work, spare)
}
