ghost use Rattle.std.specs.Prelude.{◌≡◌, ℕ, ◌<◌, ◌+◌, IsTrue, ◌↔◌, List, length, slice_index};
ghost use Rattle.collection_model.specs.NextBelow.{AreNextBelow};
ghost use Rattle.part_cost.specs.Span.{AreRelative};
ghost use Rattle.part_cost.specs.Stored.{IsFirstAtLeast};

/// A view of a part of m numbers in universe u. It is made before its bits are checked; no call
/// takes memory.
pub trait PartCodec<'a> {
    ghost u: { Self → ℕ };

    ghost m: { Self → ℕ };

    /// The view's bits are those of these relative values.
    ghost holds: { Self → List ℕ → Type 0 };

    /// Whether the bits are those of some values.
    fn check(&self) -> bool
        ensures { IsTrue result ↔ ((ys : List ℕ) × holds self.now ys) };

    /// Value k.
    fn get(&self, k: u64) -> u64
        requires held { (ys : List ℕ) × holds self.now ys }
        requires within { k < m self.now }
        ensures { (ys : List ℕ) → holds self.now ys → result ≡ slice_index ys k };

    /// Value k + 1, by value k.
    fn after(&self, k: u64, number: u64) -> u64
        requires held { (ys : List ℕ) × holds self.now ys }
        requires within { k + 1 < m self.now }
        requires number { (ys : List ℕ) → holds self.now ys → number ≡ slice_index ys k }
        ensures { (ys : List ℕ) → holds self.now ys → result ≡ slice_index ys (k + 1) };

    /// Gives the values from value k on that are below x, as many as there are and have room, by
    /// value k. It tells how many they are.
    fn values_below(&self, k: u64, number: u64, x: u64, to: &mut [u64]) -> usize
        requires held { (ys : List ℕ) × holds self.now ys }
        requires within { k < m self.now }
        requires number { (ys : List ℕ) → holds self.now ys → number ≡ slice_index ys k }
        ensures room { length to.new ≡ length to.old }
        ensures values { (ys : List ℕ) → holds self.now ys → AreNextBelow ys k x to.new result };

    /// The first place at or after one whose value is at least x, and that value.
    fn next_geq(&self, x: u64, from: u64) -> (u64, u64)
        requires held { (ys : List ℕ) × holds self.now ys }
        requires reached { x < u self.now }
        requires within { from < m self.now }
        ensures { (ys : List ℕ) → holds self.now ys
            → IsFirstAtLeast ys from x result.0 × (result.1 ≡ slice_index ys result.0) };

    /// The first place at or after place k whose value is at least x, and that value, by value k.
    fn first_from(&self, k: u64, number: u64, x: u64) -> (u64, u64)
        requires held { (ys : List ℕ) × holds self.now ys }
        requires reached { x < u self.now }
        requires within { k < m self.now }
        requires number { (ys : List ℕ) → holds self.now ys → number ≡ slice_index ys k }
        ensures { (ys : List ℕ) → holds self.now ys
            → IsFirstAtLeast ys k x result.0 × (result.1 ≡ slice_index ys result.0) };

    /// The values rise, and are as many as the view says.
    ghost relative: { (v : Self) (ys : List ℕ) → holds v ys → AreRelative (u v) (m v) ys };

    /// All calls speak of one list.
    ghost one_list: { (v : Self) (xs ys : List ℕ) → holds v xs → holds v ys → xs ≡ ys };
}
