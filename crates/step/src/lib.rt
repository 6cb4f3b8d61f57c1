// The exploration's one step (document 01, "Pairs, counts, sizes"; the Rust has it three times, in apply_with_flip,
// estimated_apply_complexity and apply_with_flip_and_limit): what the table says of a pair, and its two child pairs; and
// the stack on which pairs wait. The entries that it is handed are within the sets, which every caller has checked.
#![tactic(auto)]

ghost use Rattle.bdd.specs.Lent.{no_flip, set_of};
ghost use Rattle.std.specs.Prelude.{◌≡◌, ℕ, ◌-◌, ◌<◌, ◌≤◌, min, true, false, ◌&&◌, List, length, get_or, set};
ghost use Rattle.bdd.specs.Bounds.{most_entries};
ghost use Rattle.bdd.specs.Pairs.{pair, moved, flipped};
ghost use Rattle.bdd.specs.Pairs as page;
ghost use Rattle.step.specs.Step.{decision_in, code, decoded, Small, Within, Leads, Parts, kept, paired, job_over};

use bdd::{Flip, Operands, Pair, RuleSet};
use std::cmp;

// The option that an undecided pair asks, and where it leads with the option off and on.
#[derive(Clone, Copy, Debug, PartialEq, Eq)]
pub struct Children {
    pub ask: u16,
    pub off: Pair,
    pub on: Pair,
}

// The option that a pair asks, the child that becomes high, and the one that becomes low.
#[derive(Clone, Copy, Debug, PartialEq, Eq)]
pub struct Ways {
    pub ask: u16,
    pub near: Pair,
    pub other: Pair,
}

// Where one side goes.
#[derive(Clone, Copy, Debug, PartialEq, Eq)]
struct Links {
    off: u32,
    on: u32,
}

// One pair more waits, as one number.
pub fn push(stack: &mut [u32], height: usize, p: Pair)
    requires small { Small p }
    requires height_bound { height < length stack.old }
    ensures { stack.new ≡ set stack.old height (code p) }
{
    stack[height] = p.left * bdd::FACTOR + p.right;
}

// The pair that a number of the stack stands for.
pub fn pair_of(x: u32) -> Pair
    ensures { result ≡ decoded x }
{
    Pair {
        left: x / bdd::FACTOR,
        right: x % bdd::FACTOR,
    }
}

// The pair at a place of the stack.
pub fn waiting(stack: &[u32], place: usize) -> Pair
    requires { place < length stack.now }
    ensures { result ≡ decoded (get_or stack.now place 0) }
{
    pair_of(stack[place])
}

// The last entries of two sets of so many entries.
pub fn roots(left: usize, right: usize) -> Pair
    requires left_sized { (0 < left) × (left ≤ most_entries) }
    requires right_sized { (0 < right) × (right ≤ most_entries) }
    ensures { result ≡ pair (left - 1) (right - 1) }
{
    Pair {
        left: (left - 1) as u32,
        right: (right - 1) as u32,
    }
}

// Entry 0 is off, entry 1 on, any other not yet known.
pub fn decide(table: &[u8], p: Pair) -> u8
    requires { length table.now ≡ 9 }
    ensures { result ≡ decision_in table.now p }
{
    table[3 * cmp::min(p.left, 2) as usize + cmp::min(p.right, 2) as usize]
}

pub fn is_flipped(flip: Flip, v: u16) -> bool
    ensures { result ≡ flipped flip v }
{
    flip == Some(v)
}

fn are_kept(left: Flip, right: Flip) -> bool
    ensures { result ≡ (kept left && kept right) }
{
    left.is_none() && right.is_none()
}

// One side that is not flipped: it moves where it has the asked variable, and stays otherwise.
fn straight(set: &RuleSet<'_>, v: u16, i: u32) -> Links
    requires { (i < length set.now.variable.now) × (i < length set.now.low.now) × (i < length set.now.high.now) }
    ensures { (result.off ≡ moved (set_of set.now) no_flip v false i) × (result.on ≡ moved (set_of set.now) no_flip v true i) }
{
    let at = i as usize;
    if set.variable[at] != v {
        return Links { off: i, on: i };
    }
    Links {
        off: set.low[at],
        on: set.high[at],
    }
}

// One side: swapped where the asked variable is flipped.
fn sides(set: &RuleSet<'_>, flip: Flip, v: u16, i: u32) -> Links
    requires { (i < length set.now.variable.now) × (i < length set.now.low.now) × (i < length set.now.high.now) }
    ensures { (result.off ≡ moved (set_of set.now) flip v false i) × (result.on ≡ moved (set_of set.now) flip v true i) }
{
    let links = straight(set, v, i);
    if is_flipped(flip, v) {
        return Links {
            off: links.on,
            on: links.off,
        };
    }
    links
}

// The option that a pair asks.
pub fn asked(lv: &[u16], rv: &[u16], p: Pair) -> u16
    requires { (p.left < length lv.now) × (p.right < length rv.now) }
    ensures { result ≡ min (get_or lv.now p.left 0) (get_or rv.now p.right 0) }
{
    cmp::min(lv[p.left as usize], rv[p.right as usize])
}

// The two child pairs from where each side goes.
fn joined(ask: u16, l: Links, r: Links) -> Children
    ensures { result ≡ paired ask l r }
{
    Children {
        ask,
        off: Pair {
            left: l.off,
            right: r.off,
        },
        on: Pair {
            left: l.on,
            right: r.on,
        },
    }
}

// The two child pairs of a pair where neither set is flipped. A job has no flips, as a rule: so they are
// tested once, and no read of a link waits for one.
// Written out, as its two callers: a call at each look costs more than it does.
#[inline(always)]
fn plain(job: &Operands<'_>, p: Pair) -> Children
    requires { Within (set_of job.now.left) p.left × Within (set_of job.now.right) p.right }
    ensures { (table : List ℕ) → Leads (page.job (set_of job.now.left) (set_of job.now.right) table no_flip no_flip) p result }
{
    let ask = asked(job.left.variable, job.right.variable, p);
    let l = straight(&job.left, ask, p.left);
    let r = straight(&job.right, ask, p.right);
    joined(ask, l, r)
}

// The two child pairs of a pair. The table has no part in it.
#[inline(always)]
pub fn expand(job: &Operands<'_>, p: Pair) -> Children
    requires { Within (set_of job.now.left) p.left × Within (set_of job.now.right) p.right }
    ensures { (table : List ℕ) → Leads (job_over job.now table) p result }
{
    if are_kept(job.flips.left, job.flips.right) {
        return plain(job, p);
    }
    let ask = asked(job.left.variable, job.right.variable, p);
    let l = sides(&job.left, job.flips.left, ask, p.left);
    let r = sides(&job.right, job.flips.right, ask, p.right);
    joined(ask, l, r)
}

// The same pair, number by number: one that is copied whole is put into one word, and taken out of it again at each look.
#[inline(always)]
pub fn apart(p: Pair) -> Pair
    ensures { result ≡ p }
{
    Pair {
        left: p.left,
        right: p.right,
    }
}

// The child with the option on becomes high.
fn unswapped(next: Children) -> Ways
    ensures { (result.ask ≡ next.ask) × (result.near ≡ next.on) × (result.other ≡ next.off) }
{
    Ways {
        ask: next.ask,
        near: apart(next.on),
        other: apart(next.off),
    }
}

// The two child pairs by the links that they become: an output flip at the asked option swaps the new entry's links.
#[inline(always)]
pub fn ways_of(job: &Operands<'_>, p: Pair) -> Ways
    requires { Within (set_of job.now.left) p.left × Within (set_of job.now.right) p.right }
    ensures { (table : List ℕ) → Parts (job_over job.now table) job.now.flips.output p result }
{
    if are_kept(job.flips.left, job.flips.right) && job.flips.output.is_none() {
        return unswapped(plain(job, p));
    }
    let next = expand(job, p);
    if is_flipped(job.flips.output, next.ask) {
        return Ways {
            ask: next.ask,
            near: apart(next.off),
            other: apart(next.on),
        };
    }
    unswapped(next)
}
