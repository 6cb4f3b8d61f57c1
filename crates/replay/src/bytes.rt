// Kinds 4 and 5: the byte form.
use replay_list::numbers::Numbers;
use replay_list::runs;
use replay_list::runs::{BYTES, ENTRIES, MARK};
use replay_list::set::JobSet;
use serialisation::{RECORD, Records};

fn write_agrees(size: usize, mut numbers: Numbers<'_>) -> bool {
    let mut set = JobSet::zero();
    set.lay(size, &mut numbers);
    let mut bytes = [MARK as u8; BYTES];
    let wrote = serialisation::write_as_bytes(&set.lent(), &mut bytes);
    let recorded = numbers.word();
    match wrote {
        Ok(count) => {
            recorded == 0
                && count / RECORD == set.size()
                && runs::agrees(&bytes, count, numbers, MARK)
        }
        Err(why) => u32::from(why) == recorded && runs::holds(&bytes, MARK),
    }
}

// Kind 4: the byte writer. The crate writes any set; a set not ordered is refused here, its bytes untouched.
pub fn writes(mut numbers: Numbers<'_>) -> Option<bool> {
    let size = numbers.size_within(ENTRIES)?;
    Some(write_agrees(size, numbers))
}

// The records and the tail bytes are recorded, then the entries.
fn read_agrees(count: usize, mut numbers: Numbers<'_>) -> Option<bool> {
    let mut output = JobSet::zero();
    let mut file = [0u8; BYTES];
    let file = &mut file[..count.min(BYTES)];
    runs::lay(file, &mut numbers, Numbers::byte);
    output.fill(ENTRIES, MARK);
    let Records { whole, tail } = serialisation::read_as_bytes(file, &mut output.lent_mut()).ok()?;
    let is_recorded = whole == numbers.size() && tail == numbers.size();
    Some(is_recorded && output.agrees(whole, numbers, MARK))
}

// Kind 5: the byte reader.
pub fn reads(mut numbers: Numbers<'_>) -> Option<bool> {
    let count = numbers.size_within(BYTES)?;
    read_agrees(count, numbers)
}
