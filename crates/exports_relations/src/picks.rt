// Picking under plain names, with three spare runs lent.
ghost use Rattle.bdd.specs.Operations.{working};
ghost use Rattle.bdd.specs.Array.{runs};
ghost use Rattle.std.specs.Prelude.{[], ◌∷◌};
ghost use Rattle.bdd.specs.Answers.{told_answer};
ghost use Rattle.relation_ops.specs.Picking.{picking, picking_one, Picks};
ghost use Rattle.exports.specs.Numbered.{Hands};

use bdd::{OutputRuns, RuleSet, WorkingRuns};
use exports::numbers::hand_on;

// Of the two ways of option v the off one where it is allowed, else the on one.
pub fn jp_var_pick(
    lv: &[u16],
    ll: &[u32],
    lh: &[u32],
    v: u16,
    variable: &mut [u16],
    low: &mut [u32],
    high: &mut [u32],
    pairs: &mut [u32],
    stack: &mut [u32],
    index: &mut [u32],
    spare_variable: &mut [u16],
    spare_low: &mut [u32],
    spare_high: &mut [u32],
    size: &mut usize,
) -> u32
    ensures { Hands told_answer (Picks (picking_one (runs lv.now ll.now lh.now) v)
        (runs variable.old low.old high.old) (runs variable.new low.new high.new) (working pairs.old stack.old index.old) (working pairs.new stack.new index.new)
        (runs spare_variable.old spare_low.old spare_high.old) (runs spare_variable.new spare_low.new spare_high.new)) result (size.new ∷ []) }
{
    let set = RuleSet {
        variable: lv,
        low: ll,
        high: lh,
    };
    let mut out = OutputRuns {
        variable,
        low,
        high,
    };
    let mut work = WorkingRuns {
        pairs,
        stack,
        index,
    };
    let mut spare = OutputRuns {
        variable: spare_variable,
        low: spare_low,
        high: spare_high,
    };
    let answer = picking::var_pick(&set, v, &mut out, &mut work, &mut spare);
    hand_on(answer, size)
}

// For each setting of the other options the smallest that is allowed of those in the list.
pub fn jp_pick(
    lv: &[u16],
    ll: &[u32],
    lh: &[u32],
    picks: &[u16],
    variable: &mut [u16],
    low: &mut [u32],
    high: &mut [u32],
    pairs: &mut [u32],
    stack: &mut [u32],
    index: &mut [u32],
    spare_variable: &mut [u16],
    spare_low: &mut [u32],
    spare_high: &mut [u32],
    size: &mut usize,
) -> u32
    ensures { Hands told_answer (Picks (picking (runs lv.now ll.now lh.now) picks.now)
        (runs variable.old low.old high.old) (runs variable.new low.new high.new) (working pairs.old stack.old index.old) (working pairs.new stack.new index.new)
        (runs spare_variable.old spare_low.old spare_high.old) (runs spare_variable.new spare_low.new spare_high.new)) result (size.new ∷ []) }
{
    let set = RuleSet {
        variable: lv,
        low: ll,
        high: lh,
    };
    let mut out = OutputRuns {
        variable,
        low,
        high,
    };
    let mut work = WorkingRuns {
        pairs,
        stack,
        index,
    };
    let mut spare = OutputRuns {
        variable: spare_variable,
        low: spare_low,
        high: spare_high,
    };
    let answer = picking::pick(&set, picks, &mut out, &mut work, &mut spare);
    hand_on(answer, size)
}
