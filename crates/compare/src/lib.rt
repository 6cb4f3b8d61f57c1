// What two rule sets have in common: the value of a set at a setting, and whether two sets hold the same numbers, mean the same,
// or differ, and then at which setting.
#![tactic(auto)]

mod merge;
mod part;

ghost use Rattle.std.specs.Prelude.{◌≡◌, ◌<◌, true, length, slice_index};
ghost use Rattle.bdd.specs.Array.{options, ordered};
ghost use Rattle.bdd.specs.Lent.{set_of};
ghost use Rattle.bdd.specs.Value.{chosen, value};
ghost use Rattle.bdd.specs.Signed.{same_runs};
ghost use Rattle.compare.specs.Told.{setting_of, is_setting, told_valued, valued, Compares};
ghost use Rattle.compare.specs.Settling.{Admits, Settleable, Settled};

use bdd::{Refusal, RuleSet};

// The numbers that a setting is lent in.
pub const SETTING: usize = bdd::MOST_OPTIONS as usize;

// How two sets stand to each other. Where they differ: the left set's value there; the right set has the other.
#[derive(Clone, Copy, Debug, PartialEq, Eq)]
pub enum Comparison {
    SameNumbers,
    SameMeaning,
    Differ(bool),
}

// Whether the setting has n numbers, each 0 or 1.
fn is_setting(setting: &[u8], n: u16) -> bool
    ensures { result ≡ is_setting n setting.now }
{
    setting.len() == n as usize && setting.iter().all(|x| *x <= 1)
}

// The link of entry i that the setting chooses.
fn link_at(set: &RuleSet<'_>, setting: &[u8], i: usize) -> usize
    requires { (i < length set.now.variable.now)
        × (i < length set.now.low.now)
        × (i < length set.now.high.now)
        × (slice_index set.now.variable.now i < length setting.now) }
    ensures { result ≡ chosen (set_of set.now) (setting_of setting.now) i }
{
    if setting[set.variable[i] as usize] == 1 {
        return checks::wide(set.high[i]);
    }
    checks::wide(set.low[i])
}

// Follows the chosen links from the root until entry 0 or 1.
fn follow(set: &RuleSet<'_>, setting: &[u8]) -> bool
    requires is_ordered { ordered (set_of set.now) ≡ true }
    requires setting_len { length setting.now ≡ options (set_of set.now) }
    ensures { result ≡ value (set_of set.now) (setting_of setting.now) }
{
    let mut i = set.variable.len() - 1;
    while 1 < i {
        i = link_at(set, setting, i);
    }
    i == 1
}

// The value of a set at a setting of its n options: n numbers, 1 for on and 0 for off.
pub fn value_at(set: &RuleSet<'_>, setting: &[u8]) -> Result<bool, Refusal>
    ensures { told_valued result ≡ valued (set_of set.now) setting.now }
{
    let Some(n) = checks::check_ordered(set) else {
        return Err(Refusal::LeftNotOrdered);
    };
    if !is_setting(setting, n) {
        return Err(Refusal::BadList);
    }
    Ok(follow(set, setting))
}

// Whether two sets hold the same numbers.
#[tactic(auto, using(crate::proofs::Values::lists_test))]
fn are_equal(left: &RuleSet<'_>, right: &RuleSet<'_>) -> bool
    requires { (ordered (set_of left.now) ≡ true) × (ordered (set_of right.now) ≡ true) }
    ensures { result ≡ same_runs (set_of left.now) (set_of right.now) }
{
    left.variable == right.variable && left.low == right.low && left.high == right.high
}

// The n options that both sets are over, or the first refusal in the paper's order; `room` is how many numbers are lent.
fn admit(left: &RuleSet<'_>, right: &RuleSet<'_>, room: usize) -> Result<u16, Refusal>
    ensures { Admits (set_of left.now) (set_of right.now) room result }
{
    let Some(n) = checks::check_ordered(left) else {
        return Err(Refusal::LeftNotOrdered);
    };
    let Some(m) = checks::check_ordered(right) else {
        return Err(Refusal::RightNotOrdered);
    };
    if n != m {
        return Err(Refusal::CountsDiffer);
    }
    if room < 5 * (left.variable.len() + right.variable.len()) {
        return Err(Refusal::ShortRun);
    }
    Ok(n)
}

// Numbers the entries of both sets by what they mean: the sets mean the same exactly if their roots have the same number.
fn settle(
    left: &RuleSet<'_>,
    right: &RuleSet<'_>,
    n: u16,
    setting: &mut [u8; SETTING],
    room: &mut [u32],
) -> Comparison
    requires { Settleable (set_of left.now) (set_of right.now) n room.old }
    ensures { Settled (set_of left.now) (set_of right.now) setting.old setting.new result }
{
    if are_equal(left, right) {
        return Comparison::SameNumbers;
    }
    let (l, r) = (left.variable.len(), right.variable.len());
    let end = l + r;
    let next = merge::number_all(left, 0, end, 2, room);
    merge::number_all(right, l, end, next, room);
    if merge::number(room, 0, l - 1) == merge::number(room, l, r - 1) {
        return Comparison::SameMeaning;
    }
    Comparison::Differ(part::part(left, right, n, room, setting))
}

// How two sets stand to each other. Only where they differ is the setting written: it is the first at which they do, read from
// the smallest option, off before on. The room has five numbers for each entry of both sets; it is all zero afterwards.
pub fn same(
    left: &RuleSet<'_>,
    right: &RuleSet<'_>,
    setting: &mut [u8; SETTING],
    room: &mut [u32],
) -> Result<Comparison, Refusal>
    ensures { Compares (set_of left.now) (set_of right.now) setting.old setting.new room.old room.new result }
{
    let n = admit(left, right, room.len())?;
    lent::clear(room);
    let comparison = settle(left, right, n, setting, room);
    lent::clear(room);
    Ok(comparison)
}
