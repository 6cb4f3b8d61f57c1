// Quantifiers and selection under plain names: one operator each on one set.
ghost use Rattle.bdd.specs.Operations.{working};
ghost use Rattle.bdd.specs.Array.{runs};
ghost use Rattle.std.specs.Prelude.{[], ◌∷◌};
ghost use Rattle.bdd.specs.Answers.{told_answer};
ghost use Rattle.relation_ops.specs.Relations.{existential, universal, selection, Relates};
ghost use Rattle.exports.specs.Numbered.{Hands};

// On where the set is on with option v off or with it on.
#[unsafe(no_mangle)]
pub extern "C" fn jp_var_exists(
    lv: &[u16],
    ll: &[u32],
    lh: &[u32],
    v: u16,
    variable: &mut [u16],
    low: &mut [u32],
    high: &mut [u32],
    pairs: &mut [u32],
    stack: &mut [u32],
    index: &mut [u32],
    size: &mut usize,
) -> u32
    ensures { Hands told_answer (Relates (existential (runs lv.now ll.now lh.now) v)
        (runs variable.old low.old high.old) (runs variable.new low.new high.new) (working pairs.old stack.old index.old) (working pairs.new stack.new index.new)) result (size.new ∷ []) }
{
    exports_relations::relations::jp_var_exists(
        lv, ll, lh, v, variable, low, high, pairs, stack, index, size,
    )
}

// On where it is on with both.
#[unsafe(no_mangle)]
pub extern "C" fn jp_var_for_all(
    lv: &[u16],
    ll: &[u32],
    lh: &[u32],
    v: u16,
    variable: &mut [u16],
    low: &mut [u32],
    high: &mut [u32],
    pairs: &mut [u32],
    stack: &mut [u32],
    index: &mut [u32],
    size: &mut usize,
) -> u32
    ensures { Hands told_answer (Relates (universal (runs lv.now ll.now lh.now) v)
        (runs variable.old low.old high.old) (runs variable.new low.new high.new) (working pairs.old stack.old index.old) (working pairs.new stack.new index.new)) result (size.new ∷ []) }
{
    exports_relations::relations::jp_var_for_all(
        lv, ll, lh, v, variable, low, high, pairs, stack, index, size,
    )
}

// The set's value where option v is `value`, otherwise off.
#[unsafe(no_mangle)]
pub extern "C" fn jp_var_select(
    lv: &[u16],
    ll: &[u32],
    lh: &[u32],
    v: u16,
    value: bool,
    variable: &mut [u16],
    low: &mut [u32],
    high: &mut [u32],
    pairs: &mut [u32],
    stack: &mut [u32],
    index: &mut [u32],
    size: &mut usize,
) -> u32
    ensures { Hands told_answer (Relates (selection (runs lv.now ll.now lh.now) v value)
        (runs variable.old low.old high.old) (runs variable.new low.new high.new) (working pairs.old stack.old index.old) (working pairs.new stack.new index.new)) result (size.new ∷ []) }
{
    exports_relations::relations::jp_var_select(
        lv, ll, lh, v, value, variable, low, high, pairs, stack, index, size,
    )
}
