// The runs of a job: what a call is lent is laid out from the recorded numbers, what it leaves is compared with them.
use crate::numbers::Numbers;
use serialisation::RECORD;

// The most entries of a job's set, and the most bytes of its file.
pub const ENTRIES: usize = 64;

pub const BYTES: usize = RECORD * ENTRIES;

// What the runs hold before a call, so that what must stay as it was is seen to stay, and what must be cleared to change.
pub const MARK: u32 = 7;

// The next numbers, one to a place, each read as the run has it.
pub fn lay<'a, T: Copy, F: Fn(&mut Numbers<'a>) -> T>(
    run: &mut [T],
    numbers: &mut Numbers<'a>,
    read: F,
)
    requires { F.IsAlwaysCallable read }
{
    for place in run.iter_mut() {
        *place = read(numbers);
    }
}

// All places hold x.
pub fn holds<T: Copy>(run: &[T], x: u32) -> bool
where
    u32: From<T>,
{
    run.iter().all(|place| u32::from(*place) == x)
}

// The first places hold the next numbers, and the others x.
pub fn agrees<T: Copy>(run: &[T], count: usize, mut numbers: Numbers<'_>, x: u32) -> bool
where
    u32: From<T>,
{
    let (recorded, others) = run.split_at(count.min(run.len()));
    recorded
        .iter()
        .all(|place| u32::from(*place) == numbers.word())
        && holds(others, x)
}

// What a working run holds after the recorded answer, and the output after a recorded refusal: 1 to 6 and 10 leave the mark
// that was there, all others zero.
pub fn left_by(recorded: u32, mark: u32) -> u32 {
    match recorded {
        1..=6 | 10 => mark,
        _ => 0,
    }
}
