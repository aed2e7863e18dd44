//! Numbers that are given one after the other.
#![tactic(auto)]

ghost use Rattle.std.specs.Prelude.{◌≡◌, ℕ, ◌≤◌, List, ◌∷◌, length, drop};

/// Numbers that are given one after the other; a copy gives the same ones again.
pub trait NumberSource: Copy {
    /// These numbers are left.
    ghost gives: { Self → List ℕ → Type 0 };

    /// How many are left.
    fn left(&self) -> u64
        requires some { (ys : List ℕ) × gives self.now ys }
        ensures { (ys : List ℕ) → gives self.now ys → result ≡ length ys };

    /// Takes the next one.
    fn take(&mut self) -> u64
        requires some { (y : ℕ) × (ys : List ℕ) × gives self.old (y ∷ ys) }
        ensures { (y : ℕ) (ys : List ℕ) → gives self.old (y ∷ ys)
            → (result ≡ y) × gives self.new ys };

    /// Passes over so many.
    fn pass(&mut self, count: u64)
        requires many { (ys : List ℕ) × gives self.old ys × (count ≤ length ys) }
        ensures { (ys : List ℕ) → gives self.old ys → gives self.new (drop count ys) };

    /// A source gives one list.
    ghost one_list: { (s : Self) (xs ys : List ℕ) → gives s xs → gives s ys → xs ≡ ys };
}

/// The numbers of a slice in order.
impl<'a> NumberSource for &'a [u64] {
    ghost use Rattle.std.proofs.Common.{sym, ◌∙◌};

    ghost gives = { λ s ys. s.now ≡ ys };

    ghost one_list = { λ s xs ys e f. sym e ∙ f };

    fn left(&self) -> u64 {
        self.len() as u64
    }

    fn take(&mut self) -> u64 {
        let all: &'a [u64] = *self;
        *self = &all[1..];
        all[0]
    }

    fn pass(&mut self, count: u64) {
        let all: &'a [u64] = *self;
        *self = &all[count as usize..];
    }
}
