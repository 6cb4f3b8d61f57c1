// A list of options as marks in four 64-bit words (document 01, module 7): option v is bit v % 64 of word v / 64. The list may come in any
// order; the greatest option is found by counting leading zeros.
#![tactic(auto)]

ghost use Rattle.std.specs.Prelude.{◌≡◌, true, false, ◌||◌, ℕ, ◌+◌, ◌^◌, ◌<◌, ◌≤◌, get_or, set, eqb};
ghost use Rattle.relation_ops.specs.Picking.{some_beyond};
ghost use Rattle.marks.specs.Marking as marking;

use bdd::Refusal;

// The lowest options are in a. Tried as [u64; 4], which is slower, since the words then leave the
// registers: 10 ns for each option that is marked and taken, not 7.
#[derive(Clone, Copy, Debug, PartialEq, Eq)]
pub struct Marks {
    pub a: u64,
    pub b: u64,
    pub c: u64,
    pub d: u64,
}

// Word i, 0 behind the last.
fn word(m: Marks, i: u16) -> u64
    ensures { result ≡ get_or (marking.words m) i 0 }
{
    match i {
        0 => m.a,
        1 => m.b,
        2 => m.c,
        3 => m.d,
        _ => 0,
    }
}

fn with_word(m: Marks, i: u16, x: u64) -> Marks
    requires { i < 4 }
    ensures { marking.words result ≡ set (marking.words m) i x }
{
    let mut out = m;
    match i {
        0 => out.a = x,
        1 => out.b = x,
        2 => out.c = x,
        _ => out.d = x,
    }
    out
}

#[tactic(auto, unfolding(crate::specs::Marking::is_on))]
fn is_on(x: u64, j: u16) -> bool
    requires { j < 64 }
    ensures { result ≡ marking.is_on j x }
{
    (x >> j) % 2 == 1
}

#[tactic(auto, unfolding(crate::specs::Marking::marked_in))]
fn is_marked(m: Marks, v: u16) -> bool
    ensures { result ≡ marking.marked_in (marking.words m) v }
{
    is_on(word(m, v / 64), v % 64)
}

fn mark(m: Marks, v: u16) -> Marks
    requires { (v < 256) × (marking.marked_in (marking.words m) v ≡ false) }
    ensures { (u : ℕ) → marking.marked_in (marking.words result) u ≡ (eqb v u || marking.marked_in (marking.words m) u) }
{
    let i = v / 64;
    with_word(m, i, word(m, i) + (1u64 << (v % 64)))
}

// The marks without option v.
pub fn without(m: Marks, v: u16) -> Marks
    ensures { marking.marked_options result ≡ marking.without v (marking.marked_options m) }
{
    if !is_marked(m, v) {
        return m;
    }
    let i = v / 64;
    with_word(m, i, word(m, i) - (1u64 << (v % 64)))
}

// The highest bit that is 1.
fn top(x: u64) -> u16
    requires { 0 < x }
    ensures { (result < 64) × (2 ^ result ≤ x) × (x < 2 ^ (result + 1)) }
{
    (63 - x.leading_zeros()) as u16
}

// The greatest option that is marked.
pub fn greatest(m: Marks) -> Option<u16>
    ensures { result ≡ marking.first_of (marking.marked_options m) }
{
    for i in (0..4).rev() {
        let x = word(m, i);
        if 0 < x {
            return Some(i * 64 + top(x));
        }
    }
    None
}

// Whether an option of the list is n or more.
fn is_beyond(picks: &[u16], n: u16) -> bool
    ensures { result ≡ some_beyond n picks.now }
{
    picks.iter().any(|&v| n <= v)
}

// The list, marked option by option; an option that is marked already repeats.
fn read(picks: &[u16]) -> Result<Marks, Refusal>
    requires { some_beyond 256 picks.now ≡ false }
    ensures { marking.Reads picks.now result }
{
    let mut m = Marks {
        a: 0,
        b: 0,
        c: 0,
        d: 0,
    };
    for &v in picks {
        if is_marked(m, v) {
            return Err(Refusal::BadList);
        }
        m = mark(m, v);
    }
    Ok(m)
}

// The list as marks: NoSuchOption where an option is n or more, wherever it stands, or else BadList
// where one repeats.
pub fn marked(picks: &[u16], n: u16) -> Result<Marks, Refusal>
    requires { n ≤ 256 }
    ensures { marking.Lists picks.now n result }
{
    if is_beyond(picks, n) {
        return Err(Refusal::NoSuchOption);
    }
    read(picks)
}
