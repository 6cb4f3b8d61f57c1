// The dry run of an operator under a plain name, in its general form.
ghost use Rattle.bdd.specs.Array.{runs};
ghost use Rattle.std.specs.Prelude.{◌≡◌, [], ◌∷◌};
ghost use Rattle.bdd.specs.Operations.{operation};
ghost use Rattle.bdd.specs.Pairs.{job};
ghost use Rattle.boolean_ops.specs.Operations.{told_dry, Dries};
ghost use Rattle.exports.specs.Numbered.{Hands, numbered_flip, numbered_limit};

use super::numbers::{flips_of, limit_of, number_of};
use bdd::{Operands, Refusal, RuleSet};
use boolean_ops::Dry;

// "Can it hold" as 1 or 0, and c; 0 for both in a refusal.
fn hand_on_dry(answer: Result<Dry, Refusal>, holds: &mut u32, count: &mut usize) -> u32
    ensures value { result ≡ (told_dry answer).number }
    ensures count_after { holds.new ∷ count.new ∷ [] ≡ (told_dry answer).values }
{
    let dry = answer.unwrap_or(Dry {
        can_hold: false,
        pairs: 0,
    });
    *holds = u32::from(dry.can_hold);
    *count = dry.pairs;
    number_of(answer)
}

// The dry run of an operator, with flips and a limit.
pub fn jp_check_fused_binary_flip_op(
    limit: usize,
    table: &[u8],
    lv: &[u16],
    ll: &[u32],
    lh: &[u32],
    rv: &[u16],
    rl: &[u32],
    rh: &[u32],
    flip_left: u32,
    flip_right: u32,
    flip_out: u32,
    pairs: &mut [u32],
    stack: &mut [u32],
    holds: &mut u32,
    count: &mut usize,
) -> u32
    ensures { Hands told_dry (Dries
        (operation (job (runs lv.now ll.now lh.now) (runs rv.now rl.now rh.now) table.now (numbered_flip flip_left) (numbered_flip flip_right))
        (numbered_flip flip_out) (numbered_limit limit))
        pairs.old stack.old pairs.new stack.new) result (holds.new ∷ count.new ∷ []) }
{
    let job = Operands {
        table,
        left: RuleSet {
            variable: lv,
            low: ll,
            high: lh,
        },
        right: RuleSet {
            variable: rv,
            low: rl,
            high: rh,
        },
        flips: flips_of(flip_left, flip_right, flip_out),
    };
    let answer = boolean_ops::check_fused_binary_flip_op(limit_of(limit), &job, pairs, stack);
    hand_on_dry(answer, holds, count)
}
