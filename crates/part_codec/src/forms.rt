ghost use Rattle.std.specs.Prelude.{◌≡◌, ℕ, ◌≤◌, ◌^◌, ◌+◌, ◌<◌, map, length};
ghost use Rattle.std.specs.List.{range_with_len};
ghost use Rattle.part_cost.specs.Payload.{widest_low};
ghost use Rattle.ranked_bitmap.specs.WholeWords.{whole_words};

use elias_fano::EfView;
use ranked_bitmap::MapView;

/// A part whose places are all taken.
#[derive(Clone, Copy)]
pub struct OnesView {
    pub u: u64,
    pub ghost some: { 1 ≤ u },
    pub ghost in_range: { u ≤ 2 ^ widest_low },
}

impl OnesView {
    /// A part of this many numbers, one at each place.
    pub fn at(u: u64) -> OnesView
        requires some { 1 ≤ u }
        requires in_range { u ≤ 2 ^ widest_low }
        ensures { result.u ≡ u }
    {
        OnesView { u }
    }

    // Gives the numbers, each so far past a base, as many as have room.
    pub(crate) fn numbers_into(&self, base: u64, to: &mut [u64])
        requires base { base < 2 ^ 62 }
        ensures { to.new ≡ map (λ y. y + base) (range_with_len 0 (length to.old)) }
    {
        for k in 0..to.len() {
            to[k] = k as u64 + base;
        }
    }

    // How many whole words of its places lie in the part from one on, `most` at most.
    pub(crate) fn whole_words(&self, from: u64, most: usize) -> usize
        ensures { result ≡ whole_words self.now.u from most }
    {
        most.min((self.u.saturating_sub(from) / 64) as usize)
    }
}

/// A view in one of the three forms.
#[derive(Clone, Copy)]
pub enum Form<'a> {
    Ones(OnesView),
    Bitmap(MapView<'a, 512>),
    Ef(EfView<'a, 128>),
}
