// Quantifiers and selection under plain names: one operator each on one set.
ghost use Rattle.bdd.specs.Operations.{working};
ghost use Rattle.bdd.specs.Array.{runs};
ghost use Rattle.std.specs.Prelude.{[], ◌∷◌};
ghost use Rattle.bdd.specs.Answers.{told_answer};
ghost use Rattle.relation_ops.specs.Relations.{existential, universal, selection, Relates};
ghost use Rattle.exports.specs.Numbered.{Hands};

use bdd::{OutputRuns, RuleSet, WorkingRuns};
use exports::numbers::hand_on;

// On where the set is on with option v off or with it on.
pub fn jp_var_exists(
    lv: &[u16],
    ll: &[u32],
    lh: &[u32],
    v: u16,
    variable: &mut [u16],
    low: &mut [u32],
    high: &mut [u32],
    pairs: &mut [u32],
    stack: &mut [u32],
    index: &mut [u32],
    size: &mut usize,
) -> u32
    ensures { Hands told_answer (Relates (existential (runs lv.now ll.now lh.now) v)
        (runs variable.old low.old high.old) (runs variable.new low.new high.new) (working pairs.old stack.old index.old) (working pairs.new stack.new index.new)) result (size.new ∷ []) }
{
    let set = RuleSet {
        variable: lv,
        low: ll,
        high: lh,
    };
    let mut out = OutputRuns {
        variable,
        low,
        high,
    };
    let mut work = WorkingRuns {
        pairs,
        stack,
        index,
    };
    let answer = relation_ops::var_exists(&set, v, &mut out, &mut work);
    hand_on(answer, size)
}

// On where it is on with both.
pub fn jp_var_for_all(
    lv: &[u16],
    ll: &[u32],
    lh: &[u32],
    v: u16,
    variable: &mut [u16],
    low: &mut [u32],
    high: &mut [u32],
    pairs: &mut [u32],
    stack: &mut [u32],
    index: &mut [u32],
    size: &mut usize,
) -> u32
    ensures { Hands told_answer (Relates (universal (runs lv.now ll.now lh.now) v)
        (runs variable.old low.old high.old) (runs variable.new low.new high.new) (working pairs.old stack.old index.old) (working pairs.new stack.new index.new)) result (size.new ∷ []) }
{
    let set = RuleSet {
        variable: lv,
        low: ll,
        high: lh,
    };
    let mut out = OutputRuns {
        variable,
        low,
        high,
    };
    let mut work = WorkingRuns {
        pairs,
        stack,
        index,
    };
    let answer = relation_ops::var_for_all(&set, v, &mut out, &mut work);
    hand_on(answer, size)
}

// The set's value where option v is `value`, otherwise off.
pub fn jp_var_select(
    lv: &[u16],
    ll: &[u32],
    lh: &[u32],
    v: u16,
    value: bool,
    variable: &mut [u16],
    low: &mut [u32],
    high: &mut [u32],
    pairs: &mut [u32],
    stack: &mut [u32],
    index: &mut [u32],
    size: &mut usize,
) -> u32
    ensures { Hands told_answer (Relates (selection (runs lv.now ll.now lh.now) v value)
        (runs variable.old low.old high.old) (runs variable.new low.new high.new) (working pairs.old stack.old index.old) (working pairs.new stack.new index.new)) result (size.new ∷ []) }
{
    let set = RuleSet {
        variable: lv,
        low: ll,
        high: lh,
    };
    let mut out = OutputRuns {
        variable,
        low,
        high,
    };
    let mut work = WorkingRuns {
        pairs,
        stack,
        index,
    };
    let answer = relation_ops::var_select(&set, v, value, &mut out, &mut work);
    hand_on(answer, size)
}
