// The numbers of a job, as they are read from the front.
ghost use Rattle.std.specs.Prelude.{◌≤◌, IfSome};

// Behind the last recorded number all are 0, so that a damaged list can only disagree.
#[derive(Clone, Copy)]
pub struct Numbers<'a> {
    left: &'a [u32],
}

impl<'a> Numbers<'a> {
    pub fn new(left: &'a [u32]) -> Numbers<'a> {
        Numbers { left }
    }

    pub fn word(&mut self) -> u32 {
        let Some((first, others)) = self.left.split_first() else {
            return 0;
        };
        self.left = others;
        *first
    }

    pub fn half_word(&mut self) -> u16 {
        lent::narrow16(self.word())
    }

    pub fn byte(&mut self) -> u8 {
        lent::narrow8(self.word())
    }

    pub fn flag(&mut self) -> bool {
        self.word() == 1
    }

    // A length, a room or a count.
    pub fn size(&mut self) -> usize {
        self.word() as usize
    }

    // The same where it is at most that of the run that is here for it.
    pub fn size_within(&mut self, most: usize) -> Option<usize>
        ensures { IfSome result (λ size. size ≤ most) }
    {
        let size = self.size();
        if size <= most { Some(size) } else { None }
    }

    // The next number, which stays the next.
    pub fn peek(mut self) -> u32 {
        self.word()
    }

    pub fn skip(&mut self, count: usize) {
        self.left = self.left.get(count..).unwrap_or(&[]);
    }
}
