// The operator that a word says: by nine digits, by its number, or by its name.
use crate::lines::Tails;
use crate::outcome::Failure;
use crate::texts::Wanted;
use crate::{lines, words};
use bdd::Refusal;

// The number of the operator of that name.
fn named(word: &[u8]) -> Option<u8> {
    match word {
        b"and" => Some(8),
        b"or" => Some(14),
        b"xor" => Some(6),
        b"iff" => Some(9),
        b"imp" => Some(11),
        b"and_not" => Some(4),
        _ => None,
    }
}

// The number that word i says for an operator, by a name or by itself.
fn number(rt: &HostRuntime, i: usize) -> Option<u8> {
    let mut word = [0u8; words::LONGEST];
    if let Some(p) = named(words::take(rt, i, &mut word)) {
        return Some(p);
    }
    u8::try_from(words::number(rt, i)?).ok()
}

// The nine answers of the operator that word i says, or a line.
pub fn taken(rt: &HostRuntime, i: usize) -> Result<[u8; 9], Failure> {
    if let Some(table) = words::table(rt, i) {
        return Ok(table);
    }
    let Some(p) = number(rt, i) else {
        return Err(lines::not_this(rt, Wanted::Operator, i));
    };
    op_function::operator(p).ok_or_else(|| lines::refuse(rt, Refusal::BadTable, Tails::none()))
}
