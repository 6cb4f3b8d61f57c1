// Files of the byte form, named by words: read whole, written whole or not at all. The buffers are lent whole, and only the function
// that they are lent to takes a part: it is proved of no run of so many zeros.
ghost use Rattle.std.specs.Prelude.{◌≤◌};
ghost use Rattle.std.specs.Io.{WritesAtMost};

use crate::runs::Runs;
use bdd::{Answer, MOST_ENTRIES, Refusal, RuleSet};
use desk_words::lines::{Line, Tail, Tails, Written};
use desk_words::outcome::{Ended, Failure, Outcome};
use desk_words::texts::{Step, Things};
use desk_words::{lines, words};
use serialisation::{RECORD, Records};
use std::env::FillError;
use std::fs::File;
use std::io::{ErrorKind, Print, Read, Write};
use std::random::RandomSource;
use std::rt::Env;
use std::{fs, io, str};

// The longest file that is read, and one byte more, by which a longer one is known.
const LONGEST: usize = 65_536;

const BUFFER: usize = LONGEST + 1;

const WRITTEN: usize = RECORD * MOST_ENTRIES;

// What is put behind a name, and the mark that ends it on the channel. All of it is what a pipe takes in one piece.
const LETTERS: usize = 8;

const PART: usize = LETTERS + 6;

const MARKED: usize = PART + 1;

const NAMES: usize = 4096;

const NAME: usize = NAMES - MARKED;

// A set that a job was given, and the bytes that were dropped behind its entries.
#[derive(Clone, Copy)]
pub struct Input<'a> {
    pub set: RuleSet<'a>,
    pub tail: Tail,
}

// What is wrong with a word that names a file.
fn kind_of(error: FillError) -> ErrorKind {
    match error {
        FillError::TooLong => ErrorKind::InvalidFilename,
        FillError::NotPresent => ErrorKind::InvalidInput,
    }
}

// What the other name of word i stands under in the environment. Files are named by words 2 to 5.
fn other_name(i: usize) -> &'static str {
    match i {
        2 => "DESK_WORD_2",
        3 => "DESK_WORD_3",
        4 => "DESK_WORD_4",
        _ => "DESK_WORD_5",
    }
}

// Puts the path of the file of word i into a buffer, and answers its length: the word, where it is UTF-8, as std wants a path; else
// the other name of the same file that what started the program has for it. A length, as std's `var` answers.
fn take_path(rt: &HostRuntime, i: usize, path: &mut [u8]) -> Result<usize, FillError>
    ensures { WritesAtMost result path.new }
{
    let n = words::taken(rt, i, path)?;
    if str::from_utf8(&path[..n]).is_ok() {
        return Ok(n);
    }
    rt.var(other_name(i), path)
}

// A path as text.
fn path_of(name: &[u8]) -> io::Result<&str> {
    str::from_utf8(name).map_err(|_| io::Error::from(ErrorKind::InvalidInput))
}

// Reads until the end, or until the bytes are full. A step is what one read gave, which no range counts.
fn read_open<'a, R: Read>(from: &mut R, bytes: &'a mut [u8; BUFFER]) -> io::Result<&'a [u8]> {
    let mut done = 0;
    while done < BUFFER {
        let n = from.read(&mut bytes[done..])?;
        if n == 0 {
            break;
        }
        done += n;
    }
    Ok(&bytes[..done])
}

fn open_word(rt: &HostRuntime, i: usize) -> io::Result<File> {
    let mut path = [0u8; words::TAKEN];
    match take_path(rt, i, &mut path) {
        Ok(n) => File::open(rt, path_of(&path[..n])?),
        Err(e) => Err(io::Error::from(kind_of(e))),
    }
}

// The file of word i, of which a line says the name.
fn read_named<'a>(
    rt: &HostRuntime,
    i: usize,
    name: &[u8],
    bytes: &'a mut [u8; BUFFER],
) -> Result<&'a [u8], Failure> {
    let mut file = open_word(rt, i).map_err(|e| lines::failed(rt, Step::Open, name, e.kind()))?;
    read_open(&mut file, bytes).map_err(|e| lines::failed(rt, Step::Read, name, e.kind()))
}

fn read_input<'a>(rt: &HostRuntime, bytes: &'a mut [u8; BUFFER]) -> Result<&'a [u8], Failure> {
    read_open(&mut rt.stdin(), bytes).map_err(|e| lines::failed(
        rt,
        Step::Read,
        b"standard input",
        e.kind(),
    ))
}

// The bytes of the file of word i.
fn read_word<'a>(
    rt: &HostRuntime,
    i: usize,
    bytes: &'a mut [u8; BUFFER],
) -> Result<&'a [u8], Failure> {
    if words::is_dash(rt, i) {
        return read_input(rt, bytes);
    }
    let mut name = [0u8; words::TAKEN];
    match words::taken(rt, i, &mut name) {
        Ok(n) => read_named(rt, i, &name[..n], bytes),
        Err(e) => Err(lines::no_name(rt, Step::Open, kind_of(e))),
    }
}

fn refuse(rt: &HostRuntime, i: usize, why: Refusal) -> Failure {
    lines::refused(rt, why);
    lines::fault(rt, b": ");
    lines::fault_word(rt, i);
    lines::fault(rt, b"\n");
    Failure::Refused
}

// Puts the set in the bytes into the runs, and answers how many entries it has, and how many bytes are behind them.
fn decode(bytes: &[u8], runs: &mut Runs) -> Result<Records, Refusal> {
    if LONGEST < bytes.len() {
        return Err(Refusal::NoRoom);
    }
    serialisation::read_as_bytes(bytes, &mut runs.output())
}

// Reads the set in the file of word i.
pub fn load<'a>(rt: &HostRuntime, i: usize, runs: &'a mut Runs) -> Result<Input<'a>, Failure> {
    let mut buffer = [0u8; BUFFER];
    let bytes = read_word(rt, i, &mut buffer)?;
    let entries = decode(bytes, runs).map_err(|why| refuse(rt, i, why))?;
    Ok(Input {
        set: runs.front(entries.whole),
        tail: Tail {
            word: i,
            bytes: reader::whole_and_tail(bytes).tail,
        },
    })
}

// Writes the bytes to the disk; the file is closed behind them.
fn write_and_close(mut file: File, bytes: &[u8]) -> io::Result<()> {
    file.write_all(bytes)?;
    file.sync_all()
}

// A new file, where there is none of that name.
fn create(rt: &HostRuntime, path: &str) -> io::Result<File> {
    File::options().write(true).create_new(true).open(rt, path)
}

// Writes the bytes to a new file, which then takes the name; where that fails it is removed.
fn write_whole(rt: &HostRuntime, beside: &str, path: &str, bytes: &[u8]) -> io::Result<()> {
    let file = create(rt, beside)?;
    let named = write_and_close(file, bytes).and_then(|()| fs::rename(rt, beside, path));
    if named.is_err() {
        let _ = fs::remove_file(rt, beside);
    }
    named
}

// One of sixteen letters.
fn letter(b: u8) -> u8 {
    b'a' + b % 16
}

// What is put behind a path, letters and .part, and the mark, which ends no name.
fn part(random: &[u8; LETTERS]) -> [u8; MARKED] {
    let mut part = *b".________.part/";
    for (place, b) in part[1..].iter_mut().zip(random) {
        *place = letter(*b);
    }
    part
}

// The path of OUT, and the name beside OUT under which it is written first, which begins with the path: OUT with random letters and
// .part behind it. No other call has it, and one that a killed call left stands in nobody's way.
#[derive(Drop)]
struct Names {
    bytes: [u8; NAMES],
    path: usize,
    ghost in_room: { path ≤ 4081 },
}

impl Names {
    // The names of the file of word i.
    fn of(rt: &HostRuntime, i: usize, random: &[u8; LETTERS]) -> Result<Names, FillError> {
        let mut bytes = [0u8; NAMES];
        let path = take_path(rt, i, &mut bytes[..NAME])?;
        bytes[path..path + MARKED].copy_from_slice(&part(random));
        Ok(Names { bytes, path })
    }

    fn path(&self) -> &[u8] {
        &self.bytes[..self.path]
    }

    fn beside(&self) -> &[u8] {
        &self.bytes[..self.path + PART]
    }

    // The name beside the path, and the mark.
    fn marked(&self) -> &[u8] {
        &self.bytes[..self.path + MARKED]
    }
}

fn write_paths(rt: &HostRuntime, names: &Names, bytes: &[u8]) -> io::Result<()> {
    write_whole(rt, path_of(names.beside())?, path_of(names.path())?, bytes)
}

// Writes the bytes under the name beside the path, and gives them the path once they are whole. The name beside goes to the channel
// first, so that what started the program can remove it where the program is killed.
fn write_beside(rt: &HostRuntime, name: &[u8], names: &Names, bytes: &[u8]) -> Result<(), Failure> {
    let _ = Line::channel(rt).say(names.marked());
    write_paths(rt, names, bytes).map_err(|e| lines::failed(rt, Step::Write, name, e.kind()))
}

fn write_path(
    rt: &HostRuntime,
    i: usize,
    name: &[u8],
    random: &[u8; LETTERS],
    bytes: &[u8],
) -> Result<(), Failure> {
    match Names::of(rt, i, random) {
        Ok(names) => write_beside(rt, name, &names, bytes),
        Err(e) => Err(lines::failed(rt, Step::Write, name, kind_of(e))),
    }
}

fn write_named(rt: &HostRuntime, i: usize, bytes: &[u8]) -> Result<(), Failure> {
    let mut name = [0u8; NAME];
    let n = words::taken(rt, i, &mut name).map_err(|e| lines::no_name(
        rt,
        Step::Write,
        kind_of(e),
    ))?;
    let mut random = [0u8; LETTERS];
    rt.fill_bytes(&mut random)
        .map_err(|e| lines::no_name(rt, Step::Write, e.kind()))?;
    write_path(rt, i, &name[..n], &random, bytes)
}

fn write_output(rt: &HostRuntime, bytes: &[u8]) -> Result<(), Failure> {
    Print::write_all(&rt.stdout(), bytes).map_err(|e| lines::failed(
        rt,
        Step::Write,
        b"standard output",
        e.kind(),
    ))
}

fn write_word(rt: &HostRuntime, i: usize, bytes: &[u8]) -> Result<(), Failure> {
    if words::is_dash(rt, i) {
        return write_output(rt, bytes);
    }
    write_named(rt, i, bytes)
}

// The bytes of a set, put into a buffer.
fn encode<'a>(set: &RuleSet<'_>, bytes: &'a mut [u8; WRITTEN]) -> Result<&'a [u8], Refusal> {
    let count = serialisation::write_as_bytes(set, bytes)?;
    Ok(lent::front(bytes, count))
}

// Writes a set to the file of word i; where it does not stand there a line has said why not.
fn save(rt: &HostRuntime, i: usize, set: &RuleSet<'_>) -> Result<(), Failure> {
    let mut bytes = [0u8; WRITTEN];
    let written = encode(set, &mut bytes).map_err(|why| refuse(rt, i, why))?;
    write_word(rt, i, written)
}

// That a set of so many entries stands in its file.
fn say_done(line: Line<'_>, entries: usize) -> Written {
    line.say(b"done: ")?;
    line.count(entries, Things::Entries)
}

// The end of every job that makes a set: its file at word i, and the line.
pub fn finish(rt: &HostRuntime, answer: Answer, i: usize, tails: Tails, made: &Runs) -> Ended {
    let entries = answer.map_err(|why| lines::refuse(rt, why, tails))?;
    save(rt, i, &made.front(entries))?;
    let line = Line::answer_beside(rt, i);
    let said = say_done(line, entries);
    line.close(said, tails, Outcome::Yes, Some(i))
}
