use bit_words::Bits;
use number_source::NumberSource;

/// Places that are given one after the other.
#[derive(Clone, Copy)]
pub struct PlaceSource<'a> {
    pub(crate) marks: Bits<'a>,
    pub(crate) ends: &'a [u64],
    // How many lists there are.
    pub(crate) lists: u64,
    // The list that is reached, and how many before it have an end of their own.
    pub(crate) at: u64,
    pub(crate) passed: u64,
}

impl<'a> NumberSource for PlaceSource<'a> {
    ghost use Rattle.std.proofs.Common.{sym, ◌∙◌};
    ghost use Rattle.directory_places.specs.Source.{AreLeft};

    ghost gives = { AreLeft };

    ghost one_list = { λ s xs ys e f. e.left ∙ sym f.left };

    fn left(&self) -> u64 {
        self.lists + 1 - self.at
    }

    fn take(&mut self) -> u64 {
        let place = self.ends[self.passed as usize] + self.at;
        if self.at < self.lists {
            self.passed += self.marks.get(self.at, 1);
        }
        self.at += 1;
        place
    }

    fn pass(&mut self, count: u64) {
        let end = self.lists.min(self.at + count);
        if self.at < end {
            self.passed += self.marks.ones(self.at, end);
        }
        self.at += count;
    }
}
