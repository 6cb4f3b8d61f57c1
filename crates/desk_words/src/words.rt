// The words that the program is started with; word 0 is its own name. -q may stand before the others, and is then not counted.
ghost use Rattle.std.specs.Prelude.{◌≤◌, length};
ghost use Rattle.std.specs.Io.{WritesAtMost};

use std::env::FillError;
use std::rt::Env;

// The word that is the program's own name.
pub const OWN_NAME: usize = 0;

// The longest word that is looked at: no number, no table and no name of ours is longer.
pub const LONGEST: usize = 16;

// More words than a program can be started with: it stands so that sums cannot wrap.
const BEYOND: usize = 1_000_000;

// The argument of that number, put into a buffer; nothing where it is missing or does not fit.
fn argument<'a>(rt: &HostRuntime, i: usize, text: &'a mut [u8]) -> &'a [u8]
    ensures { length result.now ≤ length text.old }
{
    match rt.arg(i, text) {
        Ok(n) => &text[..n],
        Err(_) => &[],
    }
}

// Whether the first word is -q.
pub fn is_quiet(rt: &HostRuntime) -> bool {
    let mut word = [0u8; LONGEST];
    matches!(argument(rt, 1, &mut word), b"-q")
}

// Whether there is an argument of that number; it need not fit a buffer.
fn is_there(rt: &HostRuntime, i: usize) -> bool {
    let mut none = [0u8; 1];
    match rt.arg(i, &mut none) {
        Ok(_) | Err(FillError::TooLong) => true,
        Err(FillError::NotPresent) => false,
    }
}

// How many arguments there are, the program's name among them.
fn arguments(rt: &HostRuntime) -> usize
    ensures { result ≤ 1000000 }
{
    for i in 0..BEYOND {
        if !is_there(rt, i) {
            return i;
        }
    }
    BEYOND
}

// How many words there are.
pub fn count(rt: &HostRuntime) -> usize
    ensures { result ≤ 1000000 }
{
    let had = arguments(rt);
    if 2 <= had && is_quiet(rt) {
        return had - 1;
    }
    had
}

pub fn has(rt: &HostRuntime, i: usize) -> bool {
    i < count(rt)
}

// The place behind one.
pub fn next(i: usize) -> usize {
    if i < BEYOND { i + 1 } else { i }
}

// Where word i stands.
fn place(rt: &HostRuntime, i: usize) -> usize {
    if is_quiet(rt) { next(i) } else { i }
}

// The room for a word that is printed or names a file: one that is longer is taken for none.
pub const TAKEN: usize = 4096;

// Word i, put into a buffer; nothing where it is missing or does not fit.
pub fn take<'a>(rt: &HostRuntime, i: usize, text: &'a mut [u8]) -> &'a [u8]
    ensures { length result.now ≤ length text.old }
{
    argument(rt, place(rt, i), text)
}

// Puts word i into a buffer, and answers its length, as std's arg does, or what is wrong where there is no such word or it does not fit.
pub fn taken(rt: &HostRuntime, i: usize, text: &mut [u8]) -> Result<usize, FillError>
    ensures { WritesAtMost result text.new }
{
    rt.arg(place(rt, i), text)
}

// Whether word i is -, which stands for standard input or output.
pub fn is_dash(rt: &HostRuntime, i: usize) -> bool {
    let mut word = [0u8; LONGEST];
    matches!(take(rt, i, &mut word), b"-")
}

fn digit(b: u8) -> Option<u8> {
    match b {
        b'0'..=b'9' => Some(b - b'0'),
        _ => None,
    }
}

// One to nine digits, and zeros before them.
fn decimal(word: &[u8]) -> Option<u32> {
    if word.is_empty() {
        return None;
    }
    let mut value: u32 = 0;
    for b in word {
        if 99_999_999 < value {
            return None;
        }
        value = 10 * value + u32::from(digit(*b)?);
    }
    Some(value)
}

// The number that word i says.
pub fn number(rt: &HostRuntime, i: usize) -> Option<u32> {
    let mut word = [0u8; LONGEST];
    decimal(take(rt, i, &mut word))
}

// The number that word i says for an option or for n; the library says which of these are too great.
pub fn small_number(rt: &HostRuntime, i: usize) -> Option<u16> {
    u16::try_from(number(rt, i)?).ok()
}

fn nine(word: &[u8]) -> Option<[u8; 9]> {
    let mut table = [0u8; 9];
    if word.len() != table.len() {
        return None;
    }
    for (answer, b) in table.iter_mut().zip(word) {
        *answer = digit(*b)?;
    }
    Some(table)
}

// The nine digits of a table, where word i is nine digits.
pub fn table(rt: &HostRuntime, i: usize) -> Option<[u8; 9]> {
    let mut word = [0u8; LONGEST];
    nine(take(rt, i, &mut word))
}
