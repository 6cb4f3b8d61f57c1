// How picking begins and ends (document 01, module 7): the checks before its steps, with the list as marks; how the output is handed out,
// whose first entries were kept in the first slot; and all runs cleared.
#![tactic(auto)]

ghost use Rattle.bdd.specs.Lent.{set_of, output_of, SameOutput, SameWorking};
ghost use Rattle.bdd.specs.Operations.{working, working_of};
ghost use Rattle.std.specs.Prelude.{◌≡◌, ◌≤◌, []};
ghost use Rattle.relation_ops.specs.Picking.{picking};
ghost use Rattle.relation_ops.proofs.Whole.{early, Cleared};
ghost use Rattle.pick_ends.specs.Pieces.{runs_short, Admits, restored, handed};

use bdd::{Answer, OutputRuns, Refusal, RuleSet, WorkingRuns};
use marks::Marks;

// Whether a run is too short for n options, k of them picked, and the room w.
fn is_short(n: u16, k: usize, w: usize, stack: &[u32], index: &[u32], spare: &RuleSet<'_>) -> bool
    requires { (k ≤ 256) × (w ≤ 4096) }
    ensures { result ≡ runs_short n k w (working [] stack.now index.now) (set_of spare.now) }
{
    let least = (k + 4) * w;
    stack.len() < 2 * (n as usize) + 1
        || index.len() < w
        || spare.variable.len() < least
        || spare.low.len() < least
        || spare.high.len() < least
}

// 2, 5, 10 and 6; the list as marks where the steps may run.
pub fn admit(
    set: &RuleSet<'_>,
    picks: &[u16],
    w: usize,
    stack: &[u32],
    index: &[u32],
    spare: &RuleSet<'_>,
) -> Result<Marks, Refusal>
    requires { w ≤ 4096 }
    ensures { Admits (early (picking (set_of set.now) picks.now) (working [] stack.now index.now) (set_of spare.now) w) (set_of set.now) picks.now result }
{
    let Some(n) = checks::check_ordered(set) else {
        return Err(Refusal::LeftNotOrdered);
    };
    // Not by `?`: an edit has the wrong refusal here, and it must fail for its number alone.
    let marks = match marks::marked(picks, n) {
        Err(why) => return Err(why),
        Ok(marks) => marks,
    };
    if is_short(n, picks.len(), w, stack, index, spare) {
        return Err(Refusal::ShortRun);
    }
    Ok(marks)
}

// What the output held, put back from the first slot, then the array from the second.
fn restore<N: Copy>(run: &mut [N], spare: &[N], w: usize, s: usize)
    ensures { run.new ≡ restored w s run.old spare.now }
{
    lent::copy(run, spare, w);
    lent::copy(run, slots::part(spare, w, s), s);
}

pub fn hand_out(answer: Answer, w: usize, spare: &RuleSet<'_>, out: &mut OutputRuns<'_>)
    ensures same { SameOutput out.old out.new }
    ensures handed { output_of out.new ≡ handed answer w (output_of out.old) (set_of spare.now) }
{
    match answer {
        Err(_) => ending::clear_output(out),
        Ok(s) => {
            restore(out.variable, spare.variable, w, s);
            restore(out.low, spare.low, w, s);
            restore(out.high, spare.high, w, s);
        }
    }
}

pub fn clear_all(work: &mut WorkingRuns<'_>, spare: &mut OutputRuns<'_>)
    ensures same_work { SameWorking work.old work.new }
    ensures same_spare { SameOutput spare.old spare.new }
    ensures cleared { Cleared (working_of work.old) (working_of work.new) (output_of spare.old) (output_of spare.new) }
{
    lent::clear(work.pairs);
    lent::clear(work.stack);
    lent::clear(work.index);
    lent::clear(spare.variable);
    lent::clear(spare.low);
    lent::clear(spare.high);
}
