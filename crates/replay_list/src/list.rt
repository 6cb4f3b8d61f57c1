// The list: decimal numbers, one job to a line, each line led by how many numbers follow on it.
use crate::numbers::Numbers;
use std::io::Read;

// The longest list, in bytes, and the most numbers of a line.
const LONGEST: usize = 131_072;

const NUMBERS: usize = 1024;

// The list is on standard input: as many bytes as there are until it ends, a read fails, or the text is full.
fn read<'a>(rt: &HostRuntime, text: &'a mut [u8; LONGEST]) -> &'a [u8] {
    let mut input = rt.stdin();
    let mut done = 0;
    // No call of the library fills a lent run to the input's end: read_exact gives no count, read_to_end allocates.
    while done < LONGEST {
        let Ok(n) = input.read(&mut text[done..]) else {
            break;
        };
        if n == 0 {
            break;
        }
        done += n;
    }
    &text[..done]
}

// The numbers of a line, and how many it has; those past the run's end are dropped. A number ends at the byte behind its digits:
// a line that is not ended lacks its last. One of 2^32 or more is cut. They stand in a lent run, so how many is answered beside.
fn read_line(line: &[u8], numbers: &mut [u32; NUMBERS]) -> usize {
    let mut value = 0u32;
    let mut count = 0usize;
    for b in line {
        if let digit @ b'0'..=b'9' = *b {
            value = value.wrapping_mul(10).wrapping_add(u32::from(digit - b'0'));
        } else {
            if let Some(place) = numbers.get_mut(count) {
                *place = value;
            }
            count = count.saturating_add(1);
            value = 0;
        }
    }
    count
}

// The numbers of a job: those behind the first of its line, which says how many they are; none where it says wrong.
fn job<'a>(line: &[u8], numbers: &'a mut [u32; NUMBERS]) -> Numbers<'a> {
    let count = read_line(line, numbers);
    let mut numbers = Numbers::new(&numbers[..count.min(NUMBERS)]);
    if Some(numbers.size()) == count.checked_sub(1) {
        return numbers;
    }
    Numbers::new(&[])
}

// How many jobs there were, and how many of them agreed.
#[derive(Clone, Copy)]
struct Tally {
    jobs: u64,
    agreed: u64,
}

impl Tally {
    fn count(&mut self, agrees: bool) {
        self.jobs = self.jobs.saturating_add(1);
        self.agreed = self.agreed.saturating_add(u64::from(agrees));
    }
}

// A job is a line of the list.
fn replay<F: Fn(Numbers<'_>) -> bool>(list: &[u8], agrees: F) -> Tally
    requires { F.IsAlwaysCallable agrees }
{
    let mut numbers = [0u32; NUMBERS];
    let mut tally = Tally { jobs: 0, agreed: 0 };
    for line in list.split_inclusive(|b| *b == b'\n') {
        tally.count(agrees(job(line, &mut numbers)));
    }
    tally
}

// Replays the list on standard input, and writes how many jobs agreed.
pub fn run<F: Fn(Numbers<'_>) -> bool>(rt: &HostRuntime, agrees: F)
    requires { F.IsAlwaysCallable agrees }
{
    let mut text = [0u8; LONGEST];
    let Tally { jobs, agreed } = replay(read(rt, &mut text), agrees);
    let _ = println!(rt; "{agreed} of {jobs} recorded answers agree");
}
