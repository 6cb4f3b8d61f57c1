// The byte form under plain names.
ghost use Rattle.bdd.specs.Array.{runs};
ghost use Rattle.std.specs.Prelude.{◌≡◌, [], ◌∷◌, length};
ghost use Rattle.serialisation.specs.Bytes.{part};
ghost use Rattle.serialisation.specs.Told.{told_read, told_wrote, HasRead, HasWritten};
ghost use Rattle.exports.specs.Numbered.{Hands, place};

// Where record k starts in the file, and how long it is; 0 for both where no whole record k exists. A part cannot pass as a
// result, so its place is handed on.
#[unsafe(no_mangle)]
pub extern "C" fn jp_record(file: &[u8], k: usize, at: &mut usize) -> usize
    ensures value { result ≡ length (part file.now k) }
    ensures at_after { at.new ≡ place file.now k }
{
    exports::bytes::jp_record(file, k, at)
}

// Reads the whole records of a file into the three runs.
#[unsafe(no_mangle)]
pub extern "C" fn jp_read_as_bytes(
    file: &[u8],
    variable: &mut [u16],
    low: &mut [u32],
    high: &mut [u32],
    records: &mut usize,
    tail: &mut usize,
) -> u32
    ensures { Hands told_read (HasRead file.now (runs variable.old low.old high.old) (runs variable.new low.new high.new))
        result (records.new ∷ tail.new ∷ []) }
{
    exports::bytes::jp_read_as_bytes(file, variable, low, high, records, tail)
}

// Writes an ordered set as a file.
#[unsafe(no_mangle)]
pub extern "C" fn jp_write_as_bytes(
    variable: &[u16],
    low: &[u32],
    high: &[u32],
    bytes: &mut [u8],
    written: &mut usize,
) -> u32
    ensures { Hands told_wrote (HasWritten (runs variable.now low.now high.now) bytes.old bytes.new)
        result (written.new ∷ []) }
{
    exports::bytes::jp_write_as_bytes(variable, low, high, bytes, written)
}
