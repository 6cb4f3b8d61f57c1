// Picking (document 01, module 7; the Rust's _impl_relation_ops.rs): the checks, the steps, and how the output is handed out. The first slot
// of the spare runs keeps what the output held; the steps work in the slots behind it.
#![tactic(auto)]

ghost use Rattle.bdd.specs.Lent.{set_of, output_of, SameOutput, SameWorking};
ghost use Rattle.bdd.specs.Operations.{working_of};
ghost use Rattle.std.specs.Prelude.{◌≤◌};
ghost use Rattle.relation_ops.specs.Picking.{picking, picking_one, Picks};
ghost use Rattle.relation_ops.proofs.Whole.{early};
ghost use Rattle.pick_ends.specs.Pieces.{Admits};

use bdd::{Answer, OutputRuns, Refusal, RuleSet, WorkingRuns};
use marks::Marks;
use slots::Place;

// The checks before the steps. On its own, since the check does not follow two runs of `&mut` working runs into one call that reads them.
fn admit(
    set: &RuleSet<'_>,
    picks: &[u16],
    w: usize,
    work: &WorkingRuns<'_>,
    spare: &OutputRuns<'_>,
) -> Result<Marks, Refusal>
    requires { w ≤ 4096 }
    ensures { Admits (early (picking (set_of set.now) picks.now) (working_of work.now) (output_of spare.now) w) (set_of set.now) picks.now result }
{
    pick_ends::admit(set, picks, w, work.stack, work.index, &spare.as_set())
}

// The settings of the set in which the option is off, or on where off is not allowed.
pub fn var_pick(
    set: &RuleSet<'_>,
    v: u16,
    out: &mut OutputRuns<'_>,
    work: &mut WorkingRuns<'_>,
    spare: &mut OutputRuns<'_>,
) -> Answer
    ensures same { SameOutput out.old out.new }
    ensures same_work { SameWorking work.old work.new }
    ensures same_spare { SameOutput spare.old spare.new }
    ensures picks { Picks (picking_one (set_of set.now) v)
        (output_of out.old) (output_of out.new) (working_of work.old) (working_of work.new) (output_of spare.old) (output_of spare.new) result }
{
    let w = lent::room(out);
    admit(set, &[v], w, work, spare)?;
    slots::keep(&out.as_set(), 0, w, spare);
    let answer = pick_steps::var_pick_at(Place::Given, v, w, set, out, work, spare);
    pick_ends::hand_out(answer, w, &spare.as_set(), out);
    pick_ends::clear_all(work, spare);
    answer
}

// The settings of the set in which the picked options stand as in the smallest that is allowed, off before on.
// Not one function with `var_pick` that takes the steps: their type and contract are longer than the five lines that both have.
pub fn pick(
    set: &RuleSet<'_>,
    picks: &[u16],
    out: &mut OutputRuns<'_>,
    work: &mut WorkingRuns<'_>,
    spare: &mut OutputRuns<'_>,
) -> Answer
    ensures same { SameOutput out.old out.new }
    ensures same_work { SameWorking work.old work.new }
    ensures same_spare { SameOutput spare.old spare.new }
    ensures picks { Picks (picking (set_of set.now) picks.now)
        (output_of out.old) (output_of out.new) (working_of work.old) (working_of work.new) (output_of spare.old) (output_of spare.new) result }
{
    let w = lent::room(out);
    let marks = admit(set, picks, w, work, spare)?;
    slots::keep(&out.as_set(), 0, w, spare);
    let answer = pick_options::pick_at(Place::Given, marks, w, w, set, out, work, spare);
    pick_ends::hand_out(answer, w, &spare.as_set(), out);
    pick_ends::clear_all(work, spare);
    answer
}
