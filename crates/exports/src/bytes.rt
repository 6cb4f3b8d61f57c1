// The byte form under plain names.
ghost use Rattle.bdd.specs.Array.{runs};
ghost use Rattle.std.specs.Prelude.{◌≡◌, [], ◌∷◌, length};
ghost use Rattle.serialisation.specs.Bytes.{part};
ghost use Rattle.serialisation.specs.Told.{told_read, told_wrote, HasRead, HasWritten};
ghost use Rattle.exports.specs.Numbered.{Hands, place};

use super::numbers::{hand_on, number_of};
use bdd::{OutputRuns, Refusal, RuleSet};
use serialisation::{RECORD, Records};

// Where record k starts in the file, and how long it is; 0 for both where no whole record k exists. A part cannot pass as a
// result, so its place is handed on.
pub fn jp_record(file: &[u8], k: usize, at: &mut usize) -> usize
    ensures value { result ≡ length (part file.now k) }
    ensures at_after { at.new ≡ place file.now k }
{
    let part = serialisation::record(file, k);
    *at = if part.is_empty() { 0 } else { RECORD * k };
    part.len()
}

// The reader: how many records, and how many tail bytes; 0 for both in a refusal.
fn hand_on_read(answer: Result<Records, Refusal>, records: &mut usize, tail: &mut usize) -> u32
    ensures value { result ≡ (told_read answer).number }
    ensures tail_after { records.new ∷ tail.new ∷ [] ≡ (told_read answer).values }
{
    let found = answer.unwrap_or(Records { whole: 0, tail: 0 });
    *records = found.whole;
    *tail = found.tail;
    number_of(answer)
}

// Reads the whole records of a file into the three runs.
pub fn jp_read_as_bytes(
    file: &[u8],
    variable: &mut [u16],
    low: &mut [u32],
    high: &mut [u32],
    records: &mut usize,
    tail: &mut usize,
) -> u32
    ensures { Hands told_read (HasRead file.now (runs variable.old low.old high.old) (runs variable.new low.new high.new))
        result (records.new ∷ tail.new ∷ []) }
{
    let mut out = OutputRuns {
        variable,
        low,
        high,
    };
    hand_on_read(serialisation::read_as_bytes(file, &mut out), records, tail)
}

// Writes an ordered set as a file.
pub fn jp_write_as_bytes(
    variable: &[u16],
    low: &[u32],
    high: &[u32],
    bytes: &mut [u8],
    written: &mut usize,
) -> u32
    ensures { Hands told_wrote (HasWritten (runs variable.now low.now high.now) bytes.old bytes.new)
        result (written.new ∷ []) }
{
    let set = RuleSet {
        variable,
        low,
        high,
    };
    hand_on(serialisation::write_as_bytes(&set, bytes), written)
}
