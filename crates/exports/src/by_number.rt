// The operator by one of the sixteen numbers under a plain name, in its general form.
ghost use Rattle.bdd.specs.Array.{runs};
ghost use Rattle.std.specs.Prelude.{[], ◌∷◌};
ghost use Rattle.bdd.specs.Answers.{told_answer};
ghost use Rattle.bdd.specs.Operations.{operation, Operates, working};
ghost use Rattle.bdd.specs.Pairs.{job};
ghost use Rattle.operators.specs.Numbered.{numbered};
ghost use Rattle.exports.specs.Numbered.{Hands, numbered_flip, numbered_limit};

use super::numbers::{flips_of, hand_on, limit_of};
use bdd::{OutputRuns, RuleSet, WorkingRuns};

// An operator by its number, with flips and a limit.
pub fn jp_numbered_flip_op_with_limit(
    limit: usize,
    p: u8,
    lv: &[u16],
    ll: &[u32],
    lh: &[u32],
    rv: &[u16],
    rl: &[u32],
    rh: &[u32],
    flip_left: u32,
    flip_right: u32,
    flip_out: u32,
    variable: &mut [u16],
    low: &mut [u32],
    high: &mut [u32],
    pairs: &mut [u32],
    stack: &mut [u32],
    index: &mut [u32],
    size: &mut usize,
) -> u32
    ensures { Hands told_answer (Operates
        (operation (job (runs lv.now ll.now lh.now) (runs rv.now rl.now rh.now) (numbered p) (numbered_flip flip_left) (numbered_flip flip_right))
        (numbered_flip flip_out) (numbered_limit limit))
        (runs variable.old low.old high.old) (runs variable.new low.new high.new) (working pairs.old stack.old index.old) (working pairs.new stack.new index.new)) result (size.new ∷ []) }
{
    let left = RuleSet {
        variable: lv,
        low: ll,
        high: lh,
    };
    let right = RuleSet {
        variable: rv,
        low: rl,
        high: rh,
    };
    let mut out = OutputRuns {
        variable,
        low,
        high,
    };
    let mut work = WorkingRuns {
        pairs,
        stack,
        index,
    };
    let answer = operators::numbered_flip_op_with_limit(
        limit_of(limit),
        p,
        &left,
        &right,
        flips_of(flip_left, flip_right, flip_out),
        &mut out,
        &mut work,
    );
    hand_on(answer, size)
}
