// The constant table of all sixteen operators, nine answers each, and how it is read.
ghost use Rattle.std.specs.Prelude.{◌≡◌, ◌<◌, get_or};
ghost use Rattle.bdd.specs.Table.{operator};

// Operator p's answer at a, b stands at place 9p+3a+b. Its value at known a, b is bit 2a+b of p.
const OPERATORS: [u8; 144] = [
    0, // 0
    0, 0, 0, 0, 0, 0, 0, 0, 1, // 1
    0, 2, 0, 0, 0, 2, 0, 2, 0, // 2
    1, 2, 0, 0, 0, 0, 2, 2, 1, // 3
    1, 1, 0, 0, 0, 2, 2, 2, 0, // 4: and_not
    0, 0, 1, 0, 2, 2, 0, 2, 1, // 5
    0, 2, 1, 0, 2, 1, 0, 2, 0, // 6: xor
    1, 2, 1, 0, 2, 2, 2, 2, 1, // 7
    1, 1, 1, 0, 2, 1, 2, 2, 0, // 8: and
    0, 0, 0, 1, 2, 0, 2, 2, 1, // 9: iff
    0, 2, 0, 1, 2, 2, 2, 2, 0, // 10
    1, 2, 0, 1, 2, 0, 1, 2, 1, // 11: imp
    1, 1, 0, 1, 2, 2, 1, 2, 0, // 12
    0, 0, 1, 1, 1, 2, 2, 2, 1, // 13
    0, 2, 1, 1, 1, 1, 2, 2, 0, // 14: or
    1, 2, 1, 1, 1, 2, 1, 2, 1, // 15
    1, 1, 1, 1, 1, 1, 1, 1,
];

pub(crate) fn entry(p: usize, place: usize) -> u8
    requires { (p < 16) × (place < 9) }
    ensures { result ≡ get_or (operator p) place 3 }
{
    OPERATORS[9 * p + place]
}

// The nine answers of operator p.
pub(crate) fn answers(p: usize) -> [u8; 9]
    requires { p < 16 }
    ensures { result ≡ operator p }
{
    let mut nine = [0u8; 9];
    for i in 0..9 {
        nine[i] = entry(p, i);
    }
    nine
}
