// The byte form of a rule set (document 01, module 2): ten bytes to an entry, u16, u32, u32, least byte first. The
// reader takes any bytes, the writer any runs.
#![tactic(auto)]

ghost use Rattle.std.specs.Prelude.{◌≡◌, ◌+◌, ◌*◌, ◌<◌, ◌≤◌, length, take, drop};
ghost use Rattle.bdd.specs.Lent.{set_of, output_of, entry_of_node, SameOutput};
ghost use Rattle.serialisation.specs.Bytes.{number, record_bytes, file_bytes, whole, part, entry_in, entries, put_at, over, runs_over};
ghost use Rattle.serialisation.specs.Told.{HasRead, HasWritten};

use bdd::{Answer, BddNode, OutputRuns, Refusal, RuleSet};

// The bytes of an entry.
pub const RECORD: usize = 10;

// What a reader found: how many whole records, and how many tail bytes behind them.
#[derive(Clone, Copy, Debug, PartialEq, Eq)]
pub struct Records {
    pub whole: usize,
    pub tail: usize,
}

// One line each: the library reads a number from an array of that number's own width.
fn u16_at(s: &[u8], at: usize) -> u16
    requires { at + 2 ≤ length s.now }
    ensures { result ≡ number (take 2 (drop at s.now)) }
{
    u16::from_le_bytes([s[at], s[at + 1]])
}

fn u32_at(s: &[u8], at: usize) -> u32
    requires { at + 4 ≤ length s.now }
    ensures { result ≡ number (take 4 (drop at s.now)) }
{
    u32::from_le_bytes([s[at], s[at + 1], s[at + 2], s[at + 3]])
}

// Record k as a part of the lent file, or an empty part. The test holds 10 * k below the length, so it cannot wrap.
pub fn record(file: &[u8], k: usize) -> &[u8]
    ensures { result.now ≡ part file.now k }
{
    if k < file.len() / RECORD {
        let at = RECORD * k;
        return &file[at..at + RECORD];
    }
    &file[..0]
}

fn node_at(file: &[u8], k: usize) -> BddNode
    requires { k < whole file.now }
    ensures { entry_of_node result ≡ entry_in (part file.now k) }
{
    let bytes = record(file, k);
    BddNode {
        variable: u16_at(bytes, 0),
        low: u32_at(bytes, 2),
        high: u32_at(bytes, 6),
    }
}

// The first records of the file, one a turn.
fn read_records(file: &[u8], count: usize, out: &mut OutputRuns<'_>)
    requires count_bound { count ≤ whole file.now }
    requires runs_room { (count ≤ length out.old.variable.now)
        × (count ≤ length out.old.low.now)
        × (count ≤ length out.old.high.now) }
    ensures same { SameOutput out.old out.new }
    ensures read { output_of out.new ≡ runs_over (entries file.now count) (output_of out.old) }
{
    for k in 0..count {
        let e = node_at(file, k);
        out.variable[k] = e.variable;
        out.low[k] = e.low;
        out.high[k] = e.high;
    }
}

// Reads the whole records of a file into the three runs. The tail is dropped, and counted.
pub fn read_as_bytes(file: &[u8], out: &mut OutputRuns<'_>) -> Result<Records, Refusal>
    ensures same { SameOutput out.old out.new }
    ensures read { HasRead file.now (output_of out.old) (output_of out.new) result }
{
    let count = file.len() / RECORD;
    if lent::room(out) < count {
        return Err(Refusal::NoRoom);
    }
    read_records(file, count, out);
    Ok(Records {
        whole: count,
        tail: file.len() % RECORD,
    })
}

// One record, its three numbers from a place on.
fn put_record(bytes: &mut [u8], at: usize, e: BddNode)
    requires { at + 10 ≤ length bytes.old }
    ensures { bytes.new ≡ put_at bytes.old at (record_bytes (entry_of_node e)) }
{
    bytes[at..at + 2].copy_from_slice(&e.variable.to_le_bytes());
    bytes[at + 2..at + 6].copy_from_slice(&e.low.to_le_bytes());
    bytes[at + 6..at + 10].copy_from_slice(&e.high.to_le_bytes());
}

// The records of a set, one a turn; why an entry is read here, `set_checks::is_reduced` says.
fn write_records(set: &RuleSet<'_>, bytes: &mut [u8])
    requires alike { (length set.now.low.now ≡ length set.now.variable.now)
        × (length set.now.high.now ≡ length set.now.variable.now) }
    requires bytes_room { 10 * length set.now.variable.now ≤ length bytes.old }
    ensures { bytes.new ≡ over (file_bytes (set_of set.now)) bytes.old }
{
    for k in 0..set.variable.len() {
        let e = BddNode {
            variable: set.variable[k],
            low: set.low[k],
            high: set.high[k],
        };
        put_record(bytes, RECORD * k, e);
    }
}

// Writes an ordered set as a file.
pub fn write_as_bytes(set: &RuleSet<'_>, bytes: &mut [u8]) -> Answer
    ensures { HasWritten (set_of set.now) bytes.old bytes.new result }
{
    let Some(_) = checks::check_ordered(set) else {
        return Err(Refusal::LeftNotOrdered);
    };
    let need = RECORD * set.variable.len();
    if bytes.len() < need {
        return Err(Refusal::NoRoom);
    }
    write_records(set, bytes);
    Ok(need)
}
