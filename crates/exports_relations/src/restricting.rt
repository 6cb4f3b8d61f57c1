// Restriction under plain names. The array has its LOW side first.
ghost use Rattle.bdd.specs.Array.{runs};
ghost use Rattle.std.specs.Prelude.{[], ◌∷◌};
ghost use Rattle.bdd.specs.Answers.{told_answer};
ghost use Rattle.restriction.specs.Restricts.{working, ByList, ByOption};
ghost use Rattle.exports.specs.Numbered.{Hands};

use bdd::{OutputRuns, RuleSet};
use exports::numbers::hand_on;
use restriction::RestrictionRuns;

// By n values of 0 (off), 1 (on) and 2 (free).
pub fn jp_restrict(
    lv: &[u16],
    ll: &[u32],
    lh: &[u32],
    values: &[u8],
    variable: &mut [u16],
    low: &mut [u32],
    high: &mut [u32],
    stack: &mut [u32],
    index: &mut [u32],
    map: &mut [u32],
    size: &mut usize,
) -> u32
    ensures { Hands told_answer (ByList (runs lv.now ll.now lh.now) values.now
        (runs variable.old low.old high.old) (runs variable.new low.new high.new) (working stack.old index.old map.old) (working stack.new index.new map.new)) result (size.new ∷ []) }
{
    let set = RuleSet {
        variable: lv,
        low: ll,
        high: lh,
    };
    let mut out = OutputRuns {
        variable,
        low,
        high,
    };
    let mut work = RestrictionRuns { stack, index, map };
    let answer = restriction::restrict(&set, values, &mut out, &mut work);
    hand_on(answer, size)
}

// By one option and its value.
pub fn jp_var_restrict(
    lv: &[u16],
    ll: &[u32],
    lh: &[u32],
    v: u16,
    value: bool,
    variable: &mut [u16],
    low: &mut [u32],
    high: &mut [u32],
    stack: &mut [u32],
    index: &mut [u32],
    map: &mut [u32],
    size: &mut usize,
) -> u32
    ensures { Hands told_answer (ByOption (runs lv.now ll.now lh.now) v value
        (runs variable.old low.old high.old) (runs variable.new low.new high.new) (working stack.old index.old map.old) (working stack.new index.new map.new)) result (size.new ∷ []) }
{
    let set = RuleSet {
        variable: lv,
        low: ll,
        high: lh,
    };
    let mut out = OutputRuns {
        variable,
        low,
        high,
    };
    let mut work = RestrictionRuns { stack, index, map };
    let answer = restriction::var_restrict(&set, v, value, &mut out, &mut work);
    hand_on(answer, size)
}
