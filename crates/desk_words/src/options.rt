// Options that words say, and how they are put: on or off.
ghost use Rattle.std.specs.Prelude.{◌<◌};

use crate::outcome::Failure;
use crate::texts::Wanted;
use crate::{lines, words};

// A place for each option that a set can have.
pub const PLACES: usize = bdd::MOST_OPTIONS as usize;

// One place more: a list so long is of no set.
pub const BEYOND: usize = PLACES + 1;

// What stands for an option that is free.
const FREE: u8 = 2;

// The option that word i says, or a line.
pub fn option(rt: &HostRuntime, i: usize) -> Result<u16, Failure> {
    words::small_number(rt, i).ok_or_else(|| lines::not_this(rt, Wanted::Option, i))
}

// Whether word i says on, or a line.
pub fn value(rt: &HostRuntime, i: usize) -> Result<bool, Failure> {
    let mut word = [0u8; words::LONGEST];
    match words::take(rt, i, &mut word) {
        b"off" => Ok(false),
        b"on" => Ok(true),
        _ => Err(lines::not_this(rt, Wanted::OnOrOff, i)),
    }
}

// How words say options.
#[derive(Clone, Copy, Debug, PartialEq, Eq)]
pub enum Form {
    // Each is on, and all others are off.
    On,
    // Each is as the word behind it says, and all others are free.
    Valued,
}

impl Form {
    // What stands for an option that is not put.
    fn unput(self) -> u8 {
        match self {
            Form::On => 0,
            Form::Valued => FREE,
        }
    }

    // How many words say one option.
    fn words(self) -> usize
        ensures { 0 < result }
    {
        match self {
            Form::On => 1,
            Form::Valued => 2,
        }
    }

    // How the option that word i says is put.
    fn value(self, rt: &HostRuntime, i: usize) -> Result<bool, Failure> {
        match self {
            Form::On => Ok(true),
            Form::Valued => value(rt, words::next(i)),
        }
    }
}

// Options and how they are put, as bytes, which the library takes: 0, 1 or FREE; and the greatest of those that words say.
#[derive(Clone, Copy, Debug, PartialEq, Eq)]
pub struct Put {
    values: [u8; BEYOND],
    greatest: Option<u16>,
}

impl Put {
    // Puts the option of word i, which was not put. One that no set has is not put.
    fn add(&mut self, rt: &HostRuntime, i: usize, form: Form) -> Result<(), Failure> {
        let v = option(rt, i)?;
        let is_on = form.value(rt, i)?;
        self.greatest = self.greatest.max(Some(v));
        let v = usize::from(v);
        if PLACES <= v {
            return Ok(());
        }
        if self.values[v] != form.unput() {
            return Err(lines::not_this(rt, Wanted::SaidOnce, i));
        }
        self.values[v] = u8::from(is_on);
        Ok(())
    }

    // The options that the words from word `from` on say.
    pub fn read(rt: &HostRuntime, from: usize, form: Form) -> Result<Put, Failure> {
        let mut put = Put {
            values: [form.unput(); BEYOND],
            greatest: None,
        };
        for i in (from..words::count(rt)).step_by(form.words()) {
            put.add(rt, i, form)?;
        }
        Ok(put)
    }

    // The greatest option, where it is none of n.
    pub fn beyond(&self, n: usize) -> Option<u16> {
        self.greatest.filter(|v| n <= usize::from(*v))
    }

    // How the first n options are put, or more than any set has.
    pub fn values(&self, n: usize) -> &[u8] {
        lent::front(&self.values, n)
    }
}

// The options that the words from word 4 on say; the job's words are no more than there are places.
pub fn list<'a>(rt: &HostRuntime, picks: &'a mut [u16; PLACES]) -> Result<&'a [u16], Failure> {
    let count = words::count(rt).saturating_sub(4).min(PLACES);
    for (k, pick) in picks[..count].iter_mut().enumerate() {
        *pick = option(rt, k + 4)?;
    }
    Ok(&picks[..count])
}
