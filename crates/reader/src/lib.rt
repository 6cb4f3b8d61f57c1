// The reader that holds the file and a place (document 01, module 2), and two callers of it with plain parameters.
#![tactic(auto)]

ghost use Rattle.std.specs.Prelude.{◌≡◌};
ghost use Rattle.serialisation.specs.Bytes.{part, whole, tail};
ghost use Rattle.reader.specs.Turns.{place_after, left_at};

use serialisation::RECORD;

// A file, and the number of the record that the next turn gives.
#[derive(Drop)]
pub struct Reader<'a> {
    file: &'a [u8],
    at: usize,
}

// How many whole records are left, and how many tail bytes stand behind the last. `Records` is of what a
// writer of runs has read.
#[derive(Clone, Copy, Debug, PartialEq, Eq)]
pub struct Rest {
    pub records: usize,
    pub tail: usize,
}

// The place after a turn: the next record's, or the same once no whole record is left, so that it cannot wrap.
#[tactic(auto, unfolding(crate::specs::Turns::place_after))]
fn following(file: &[u8], at: usize) -> usize
    ensures { result ≡ place_after file.now at }
{
    if at < file.len() / RECORD { at + 1 } else { at }
}

// What is left from a place on.
fn rest_from(file: &[u8], at: usize) -> Rest
    ensures { (result.records ≡ left_at file.now at) × (result.tail ≡ tail file.now) }
{
    Rest {
        records: (file.len() / RECORD).saturating_sub(at),
        tail: file.len() % RECORD,
    }
}

impl<'a> Reader<'a> {
    // At the file's start.
    pub fn new(file: &'a [u8]) -> Reader<'a>
        ensures { (result.file ≡ file.entry) × (result.at ≡ 0) }
    {
        Reader { file, at: 0 }
    }

    // Gives the record at the place, ten bytes or an empty part, and moves on.
    pub fn next(&mut self) -> &'a [u8]
        ensures { (result.now ≡ part self.old.file.now self.old.at)
            × (self.new.file ≡ self.old.file)
            × (self.new.at ≡ place_after self.old.file.now self.old.at) }
    {
        let at = self.at;
        self.at = following(self.file, at);
        serialisation::record(self.file, at)
    }

    // How many whole records the reader will still give, and how many tail bytes it will not.
    pub fn left(self) -> Rest
        ensures { (result.records ≡ left_at self.entry.file.now self.entry.at)
            × (result.tail ≡ tail self.entry.file.now) }
    {
        rest_from(self.file, self.at)
    }
}

// The whole records and the tail bytes of a file, told by a reader at its start.
pub fn whole_and_tail(file: &[u8]) -> Rest
    ensures { (result.records ≡ whole file.now) × (result.tail ≡ tail file.now) }
{
    Reader::new(file).left()
}

// What a reader at the file's start gives in turn n, counted from 0: record n, once every record before it was given.
pub fn nth(file: &[u8], n: usize) -> &[u8]
    ensures { result.now ≡ part file.now n }
{
    let mut r = Reader::new(file);
    for _ in 0..n {
        r.next();
    }
    r.next()
}
