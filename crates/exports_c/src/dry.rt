// The dry run of an operator under a plain name, in its general form.
ghost use Rattle.bdd.specs.Array.{runs};
ghost use Rattle.std.specs.Prelude.{◌≡◌, [], ◌∷◌};
ghost use Rattle.bdd.specs.Operations.{operation};
ghost use Rattle.bdd.specs.Pairs.{job};
ghost use Rattle.boolean_ops.specs.Operations.{told_dry, Dries};
ghost use Rattle.exports.specs.Numbered.{Hands, numbered_flip, numbered_limit};

// The dry run of an operator, with flips and a limit.
#[unsafe(no_mangle)]
pub extern "C" fn jp_check_fused_binary_flip_op(
    limit: usize,
    table: &[u8],
    lv: &[u16],
    ll: &[u32],
    lh: &[u32],
    rv: &[u16],
    rl: &[u32],
    rh: &[u32],
    flip_left: u32,
    flip_right: u32,
    flip_out: u32,
    pairs: &mut [u32],
    stack: &mut [u32],
    holds: &mut u32,
    count: &mut usize,
) -> u32
    ensures { Hands told_dry (Dries
        (operation (job (runs lv.now ll.now lh.now) (runs rv.now rl.now rh.now) table.now (numbered_flip flip_left) (numbered_flip flip_right))
        (numbered_flip flip_out) (numbered_limit limit))
        pairs.old stack.old pairs.new stack.new) result (holds.new ∷ count.new ∷ []) }
{
    exports::dry::jp_check_fused_binary_flip_op(
        limit, table, lv, ll, lh, rv, rl, rh, flip_left, flip_right, flip_out, pairs, stack, holds,
        count,
    )
}
