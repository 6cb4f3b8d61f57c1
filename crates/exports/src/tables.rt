// The operator table and the named functions of `op_function.rs` under plain names.
ghost use Rattle.std.specs.Prelude.{◌≡◌};
ghost use Rattle.op_function.specs.Checked.{checked_table, checked_operator, handed_out, answer_of};
ghost use Rattle.exports.specs.Numbered.{numbered_table, operator_number};

use bdd::Refusal;

// Whether nine answers are a good table.
pub fn jp_check_table(table: &[u8]) -> u32
    ensures { result ≡ numbered_table (checked_table table.now) }
{
    u32::from(op_function::check_table(table))
}

// Hands out operator p's nine answers; a p of 16 or more is refused with 1, and the lent nine stay as they were.
#[tactic(auto, unfolding(op_function::specs::Checked::checked_operator, op_function::specs::Checked::handed_out))]
pub fn jp_operator(p: u8, table: &mut [u8; 9]) -> u32
    ensures value { result ≡ operator_number (checked_operator p) }
    ensures table_after { table.new ≡ handed_out p table.old }
{
    let Some(answers) = op_function::operator(p) else {
        return u32::from(Refusal::BadTable);
    };
    *table = answers;
    0
}

// `l & r`.
pub fn jp_op_and(l: u8, r: u8) -> u8
    ensures { result ≡ answer_of 8 l r }
{
    op_function::and(l, r)
}

// `l | r`.
pub fn jp_op_or(l: u8, r: u8) -> u8
    ensures { result ≡ answer_of 14 l r }
{
    op_function::or(l, r)
}

// `l => r`.
pub fn jp_op_imp(l: u8, r: u8) -> u8
    ensures { result ≡ answer_of 11 l r }
{
    op_function::imp(l, r)
}

// `l <=> r`.
pub fn jp_op_iff(l: u8, r: u8) -> u8
    ensures { result ≡ answer_of 9 l r }
{
    op_function::iff(l, r)
}

// `l ^ r`.
pub fn jp_op_xor(l: u8, r: u8) -> u8
    ensures { result ≡ answer_of 6 l r }
{
    op_function::xor(l, r)
}

// `l & !r`.
pub fn jp_op_and_not(l: u8, r: u8) -> u8
    ensures { result ≡ answer_of 4 l r }
{
    op_function::and_not(l, r)
}
