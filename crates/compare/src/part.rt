// Where two sets part whose entries have their numbers: the first setting at which their values differ. From both roots down, two
// entries with different numbers are asked the smaller of their options: off if they still differ then, else on.
ghost use Rattle.std.specs.Prelude.{◌≡◌, ◌<◌, length};
ghost use Rattle.bdd.specs.Lent.{set_of};
ghost use Rattle.compare.specs.Told.{Parted};
ghost use Rattle.compare.specs.Parting.{asks, leads, Steppable, Steps, Apart, AllOff};

use crate::merge::number;
use bdd::RuleSet;
use std::cmp::min;

// An entry of each set.
#[derive(Clone, Copy)]
struct Two {
    left: usize,
    right: usize,
}

// The smaller of two variables.
fn asked(left: &RuleSet<'_>, right: &RuleSet<'_>, at: Two) -> u16
    requires { (at.left < length left.now.variable.now) × (at.right < length right.now.variable.now) }
    ensures { result ≡ asks left.now.variable.now right.now.variable.now at.left at.right }
{
    min(left.variable[at.left], right.variable[at.right])
}

// Where an entry leads at option v: its link if it asks this option, else it stays.
fn child(variable: &[u16], links: &[u32], v: u16, i: usize) -> usize
    requires { (i < length variable.now) × (i < length links.now) }
    ensures { result ≡ leads variable.now links.now v i }
{
    if variable[i] == v {
        checks::wide(links[i])
    } else {
        i
    }
}

// One option.
fn step(left: &RuleSet<'_>, right: &RuleSet<'_>, at: Two, room: &[u32], setting: &mut [u8]) -> Two
    requires { Steppable (set_of left.now) (set_of right.now) at.left at.right room.now setting.old }
    ensures { Steps (set_of left.now) (set_of right.now) at.left at.right room.now setting.old result.left result.right setting.new }
{
    let v = asked(left, right, at);
    let l = child(left.variable, left.low, v, at.left);
    let r = child(right.variable, right.low, v, at.right);
    if number(room, 0, l) != number(room, left.variable.len(), r) {
        return Two { left: l, right: r };
    }
    setting[v as usize] = 1;
    Two {
        left: child(left.variable, left.high, v, at.left),
        right: child(right.variable, right.high, v, at.right),
    }
}

// Goes down from both roots until both are terminals, and answers the left one's value.
fn walk(left: &RuleSet<'_>, right: &RuleSet<'_>, n: u16, room: &[u32], setting: &mut [u8]) -> bool
    requires apart { Apart (set_of left.now) (set_of right.now) n room.now }
    requires all_off { AllOff setting.old n }
    ensures { Parted (set_of left.now) (set_of right.now) setting.new result }
{
    let mut at = Two {
        left: left.variable.len() - 1,
        right: right.variable.len() - 1,
    };
    while asked(left, right, at) < n {
        at = step(left, right, at, room, setting);
    }
    at.left == 1
}

pub(crate) fn part(
    left: &RuleSet<'_>,
    right: &RuleSet<'_>,
    n: u16,
    room: &[u32],
    setting: &mut [u8; crate::SETTING],
) -> bool
    requires { Apart (set_of left.now) (set_of right.now) n room.now }
    ensures { Parted (set_of left.now) (set_of right.now) setting.new result }
{
    *setting = [0; crate::SETTING];
    walk(left, right, n, room, setting)
}
