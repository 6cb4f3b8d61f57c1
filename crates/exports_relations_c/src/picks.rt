// Picking under plain names, with three spare runs lent.
ghost use Rattle.bdd.specs.Operations.{working};
ghost use Rattle.bdd.specs.Array.{runs};
ghost use Rattle.std.specs.Prelude.{[], ◌∷◌};
ghost use Rattle.bdd.specs.Answers.{told_answer};
ghost use Rattle.relation_ops.specs.Picking.{picking, picking_one, Picks};
ghost use Rattle.exports.specs.Numbered.{Hands};

// Of the two ways of option v the off one where it is allowed, else the on one.
#[unsafe(no_mangle)]
pub extern "C" fn jp_var_pick(
    lv: &[u16],
    ll: &[u32],
    lh: &[u32],
    v: u16,
    variable: &mut [u16],
    low: &mut [u32],
    high: &mut [u32],
    pairs: &mut [u32],
    stack: &mut [u32],
    index: &mut [u32],
    spare_variable: &mut [u16],
    spare_low: &mut [u32],
    spare_high: &mut [u32],
    size: &mut usize,
) -> u32
    ensures { Hands told_answer (Picks (picking_one (runs lv.now ll.now lh.now) v)
        (runs variable.old low.old high.old) (runs variable.new low.new high.new) (working pairs.old stack.old index.old) (working pairs.new stack.new index.new)
        (runs spare_variable.old spare_low.old spare_high.old) (runs spare_variable.new spare_low.new spare_high.new)) result (size.new ∷ []) }
{
    exports_relations::picks::jp_var_pick(
        lv,
        ll,
        lh,
        v,
        variable,
        low,
        high,
        pairs,
        stack,
        index,
        spare_variable,
        spare_low,
        spare_high,
        size,
    )
}

// For each setting of the other options the smallest that is allowed of those in the list.
#[unsafe(no_mangle)]
pub extern "C" fn jp_pick(
    lv: &[u16],
    ll: &[u32],
    lh: &[u32],
    picks: &[u16],
    variable: &mut [u16],
    low: &mut [u32],
    high: &mut [u32],
    pairs: &mut [u32],
    stack: &mut [u32],
    index: &mut [u32],
    spare_variable: &mut [u16],
    spare_low: &mut [u32],
    spare_high: &mut [u32],
    size: &mut usize,
) -> u32
    ensures { Hands told_answer (Picks (picking (runs lv.now ll.now lh.now) picks.now)
        (runs variable.old low.old high.old) (runs variable.new low.new high.new) (working pairs.old stack.old index.old) (working pairs.new stack.new index.new)
        (runs spare_variable.old spare_low.old spare_high.old) (runs spare_variable.new spare_low.new spare_high.new)) result (size.new ∷ []) }
{
    exports_relations::picks::jp_pick(
        lv,
        ll,
        lh,
        picks,
        variable,
        low,
        high,
        pairs,
        stack,
        index,
        spare_variable,
        spare_low,
        spare_high,
        size,
    )
}
