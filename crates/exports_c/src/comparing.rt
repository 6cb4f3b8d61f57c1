// The value of a set at a setting, and how two sets stand to each other, under plain names.
ghost use Rattle.bdd.specs.Array.{runs};
ghost use Rattle.std.specs.Prelude.{◌≡◌, [], ◌∷◌};
ghost use Rattle.compare.specs.Told.{told_valued, valued, told_comparison, Compares};
ghost use Rattle.exports.specs.Numbered.{Hands};

// The value of a set at a setting of its n options: n numbers, 1 for on and 0 for off.
#[unsafe(no_mangle)]
pub extern "C" fn jp_value_at(
    variable: &[u16],
    low: &[u32],
    high: &[u32],
    setting: &[u8],
    value: &mut u32,
) -> u32
    ensures value { result ≡ (valued (runs variable.now low.now high.now) setting.now).number }
    ensures value_after { value.new ∷ [] ≡ (valued (runs variable.now low.now high.now) setting.now).values }
{
    exports::comparing::jp_value_at(variable, low, high, setting, value)
}

// Whether two sets hold the same numbers, mean the same, or differ, and then at which setting.
#[unsafe(no_mangle)]
pub extern "C" fn jp_same(
    lv: &[u16],
    ll: &[u32],
    lh: &[u32],
    rv: &[u16],
    rl: &[u32],
    rh: &[u32],
    setting: &mut [u8; compare::SETTING],
    room: &mut [u32],
    standing: &mut u32,
    left: &mut u32,
) -> u32
    ensures { Hands told_comparison (Compares (runs lv.now ll.now lh.now) (runs rv.now rl.now rh.now) setting.old setting.new
        room.old room.new) result (standing.new ∷ left.new ∷ []) }
{
    exports::comparing::jp_same(lv, ll, lh, rv, rl, rh, setting, room, standing, left)
}
