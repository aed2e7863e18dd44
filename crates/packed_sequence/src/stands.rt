ghost use Rattle.std.specs.Prelude.{◌≡◌};
ghost use Rattle.packed_sequence.specs.Sums.{sums_at, SumsStand};

use crate::behind::Behind;
use crate::last_field::last_sum;
use crate::laws::sequences_state_back;
use crate::view::known_sequence;
use two_level::SeqView;

// The sums of m frequencies, none above the greatest, whose bits stand behind those of the
// documents.
#[derive(Clone, Copy)]
pub(crate) struct Sums<'a> {
    pub(crate) words: &'a [u64],
    pub(crate) docs: Behind,
    pub(crate) m: u32,
    pub(crate) greatest: u32,
}

// How a sequence is known.
#[derive(Drop)]
pub(crate) enum Stands<'a> {
    Read(SeqView<'a>),
    Unread(Sums<'a>),
}

impl<'a> Sums<'a> {
    // Their sequence, found in place.
    #[inline(always)]
    pub(crate) fn known(self) -> SeqView<'a>
        requires { SumsStand self.words.now self.docs self.m self.greatest }
        ensures { result ≡ sums_at self.entry.words.now self.entry.docs self.entry.m
            self.entry.greatest }
    {
        sequences_state_back();
        let at = self.docs.of(self.m);
        let last = last_sum(self.m, self.greatest);
        known_sequence(self.words, at, self.m, last)
    }

    // Their sequence, found by a call.
    pub(crate) fn view(self) -> SeqView<'a>
        requires { SumsStand self.words.now self.docs self.m self.greatest }
        ensures { result ≡ sums_at self.entry.words.now self.entry.docs self.entry.m
            self.entry.greatest }
    {
        self.known()
    }
}
