// The operator table (document 01) and `op_function.rs`: all sixteen operators as one flat constant table, the check
// of a table that a caller brings, and the six operators that have names. An input or an answer is 0 for off, 1 for
// on, 2 for not yet known; the answer at inputs a, b of an operator stands at place 3a+b of its nine.
#![tactic(auto)]

ghost use Rattle.std.specs.Prelude.{◌≡◌, ◌+◌, ◌*◌, ◌<◌, min, length};
ghost use Rattle.op_function.specs.Checked.{checked_table, checked_operator, answer_of, line, all_lines, known_answers};

mod operators;

// Operator p's nine answers. There is none with a p of 16 or more.
#[tactic(auto, unfolding(crate::specs::Checked::checked_operator))]
pub fn operator(p: u8) -> Option<[u8; 9]>
    ensures { result ≡ checked_operator p }
{
    if p < 16 {
        Some(operators::answers(p as usize))
    } else {
        None
    }
}

// Any number from 2 on counts as not yet known.
fn input(x: u8) -> usize
    ensures { result ≡ min x 2 }
{
    if x < 2 { x as usize } else { 2 }
}

fn answer_of(p: usize, l: u8, r: u8) -> u8
    requires { p < 16 }
    ensures { result ≡ answer_of p l r }
{
    operators::entry(p, 3 * input(l) + input(r))
}

// The six that have names are one call each, since C and the callers of the Rust know them by these names.

// `l & r`.
pub fn and(l: u8, r: u8) -> u8
    ensures { result ≡ answer_of 8 l r }
{
    answer_of(8, l, r)
}

// `l | r`.
pub fn or(l: u8, r: u8) -> u8
    ensures { result ≡ answer_of 14 l r }
{
    answer_of(14, l, r)
}

// `l => r`.
pub fn imp(l: u8, r: u8) -> u8
    ensures { result ≡ answer_of 11 l r }
{
    answer_of(11, l, r)
}

// `l <=> r`.
pub fn iff(l: u8, r: u8) -> u8
    ensures { result ≡ answer_of 9 l r }
{
    answer_of(9, l, r)
}

// `l ^ r`.
pub fn xor(l: u8, r: u8) -> u8
    ensures { result ≡ answer_of 6 l r }
{
    answer_of(6, l, r)
}

// `l & !r`.
pub fn and_not(l: u8, r: u8) -> u8
    ensures { result ≡ answer_of 4 l r }
{
    answer_of(4, l, r)
}

// The four places where both inputs are known.
#[tactic(auto, unfolding(crate::specs::Checked::known_answers, bdd::specs::Table::known, bdd::specs::Array::every))]
fn are_known(table: &[u8]) -> bool
    requires { length table.now ≡ 9 }
    ensures { result ≡ known_answers table.now }
{
    table[0] < 2 && table[1] < 2 && table[3] < 2 && table[4] < 2
}

// The last of three answers is the one with the input unknown: it is 2, or the same as with that input off and on.
#[tactic(auto, unfolding(crate::specs::Checked::line, crate::specs::Checked::stands, bdd::specs::Table::known))]
fn is_line(table: &[u8], from: usize, step: usize) -> bool
    requires { (from + 2 * step < 9) × (length table.now ≡ 9) }
    ensures { result ≡ line table.now from step }
{
    let unknown = table[from + 2 * step];
    unknown == 2 || unknown < 2 && table[from] == unknown && table[from + step] == unknown
}

// Making an unknown known moves along a row or a column, so each of these is one test.
fn are_lines(table: &[u8]) -> bool
    requires { length table.now ≡ 9 }
    ensures { result ≡ all_lines table.now }
{
    for k in 0..3 {
        if !is_line(table, 3 * k, 1) || !is_line(table, k, 3) {
            return false;
        }
    }
    true
}

// Whether a caller's answers are a good table: nine, known where both inputs are, and what is known with an unknown
// stands when that is made known.
#[tactic(auto, using(crate::proofs::Lines::good_test))]
pub fn check_table(table: &[u8]) -> bool
    ensures { result ≡ checked_table table.now }
{
    table.len() == 9 && are_known(table) && are_lines(table)
}
