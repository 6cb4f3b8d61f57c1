// The value of a set at a setting, and how two sets stand to each other, under plain names.
ghost use Rattle.bdd.specs.Array.{runs};
ghost use Rattle.std.specs.Prelude.{◌≡◌, [], ◌∷◌};
ghost use Rattle.compare.specs.Told.{told_valued, valued, told_comparison, Compares};
ghost use Rattle.exports.specs.Numbered.{Hands};

use super::numbers::number_of;
use bdd::{Refusal, RuleSet};
use compare::Comparison;

// A value, as 1 or 0; 0 in a refusal.
fn hand_on_value(answer: Result<bool, Refusal>, value: &mut u32) -> u32
    ensures value { result ≡ (told_valued answer).number }
    ensures value_after { value.new ∷ [] ≡ (told_valued answer).values }
{
    *value = u32::from(answer.unwrap_or(false));
    number_of(answer)
}

// The value of a set at a setting of its n options: n numbers, 1 for on and 0 for off.
pub fn jp_value_at(
    variable: &[u16],
    low: &[u32],
    high: &[u32],
    setting: &[u8],
    value: &mut u32,
) -> u32
    ensures value { result ≡ (valued (runs variable.now low.now high.now) setting.now).number }
    ensures value_after { value.new ∷ [] ≡ (valued (runs variable.now low.now high.now) setting.now).values }
{
    let set = RuleSet {
        variable,
        low,
        high,
    };
    hand_on_value(compare::value_at(&set, setting), value)
}

// How the sets stand to each other, and the left set's value where they differ; 0 for both in a refusal.
fn hand_on_comparison(
    answer: Result<Comparison, Refusal>,
    standing: &mut u32,
    left: &mut u32,
) -> u32
    ensures value { result ≡ (told_comparison answer).number }
    ensures left_after { standing.new ∷ left.new ∷ [] ≡ (told_comparison answer).values }
{
    (*standing, *left) = match answer {
        Ok(Comparison::SameNumbers) => (1, 0),
        Ok(Comparison::SameMeaning) => (2, 0),
        Ok(Comparison::Differ(on)) => (3, u32::from(on)),
        Err(_) => (0, 0),
    };
    number_of(answer)
}

// Whether two sets hold the same numbers, mean the same, or differ, and then at which setting.
pub fn jp_same(
    lv: &[u16],
    ll: &[u32],
    lh: &[u32],
    rv: &[u16],
    rl: &[u32],
    rh: &[u32],
    setting: &mut [u8; compare::SETTING],
    room: &mut [u32],
    standing: &mut u32,
    left: &mut u32,
) -> u32
    ensures { Hands told_comparison (Compares (runs lv.now ll.now lh.now) (runs rv.now rl.now rh.now) setting.old setting.new
        room.old room.new) result (standing.new ∷ left.new ∷ []) }
{
    let first = RuleSet {
        variable: lv,
        low: ll,
        high: lh,
    };
    let second = RuleSet {
        variable: rv,
        low: rl,
        high: rh,
    };
    let answer = compare::same(&first, &second, setting, room);
    hand_on_comparison(answer, standing, left)
}
