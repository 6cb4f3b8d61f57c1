// How numbers become flips and limits, and how an answer becomes numbers.
ghost use Rattle.std.specs.Prelude.{◌≡◌, [], ◌∷◌};
ghost use Rattle.bdd.specs.Answers.{told_answer};
ghost use Rattle.exports.specs.Numbered.{numbered_answer, numbered_flip, numbered_limit};

use bdd::{Answer, Flip, Flips, Limit, Refusal};

// No flip, and no limit: C has no options, so numbers stand for none.
const NO_FLIP: u32 = 65536;

const NO_LIMIT: usize = usize::MAX;

// The greatest number that a flip can carry: n or more for every n.
const FARTHEST: u32 = u16::MAX as u32;

// Any number but NO_FLIP is a flip. One that is too great to be carried is n or more, and so is the one that stands for it.
pub fn flip_of(x: u32) -> Flip
    ensures { result ≡ numbered_flip x }
{
    if x == NO_FLIP {
        return None;
    }
    Some(x.min(FARTHEST) as u16)
}

// The flips of the left set, the right set and the output.
pub fn flips_of(left: u32, right: u32, output: u32) -> Flips
    ensures { result ≡ record { left = numbered_flip left; right = numbered_flip right; output = numbered_flip output } }
{
    Flips {
        left: flip_of(left),
        right: flip_of(right),
        output: flip_of(output),
    }
}

// Any number but NO_LIMIT is a limit.
pub fn limit_of(x: usize) -> Limit
    ensures { result ≡ numbered_limit x }
{
    if x == NO_LIMIT {
        return None;
    }
    Some(x)
}

// The paper's number of an answer: 0 where it is done.
pub fn number_of<T: Copy>(answer: Result<T, Refusal>) -> u32
    ensures { result ≡ numbered_answer answer }
{
    match answer {
        Ok(_) => 0,
        Err(why) => u32::from(why),
    }
}

// A maker of arrays: S, 0 in a refusal.
pub fn hand_on(answer: Answer, size: &mut usize) -> u32
    ensures value { result ≡ (told_answer answer).number }
    ensures size_after { size.new ∷ [] ≡ (told_answer answer).values }
{
    *size = answer.unwrap_or(0);
    number_of(answer)
}
