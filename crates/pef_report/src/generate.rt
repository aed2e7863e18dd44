ghost use Rattle.std.specs.Prelude.{◌≡◌, ◌≢◌, ◌≤◌, ◌<◌, ◌+◌, ◌*◌, [], ◌∷◌, length, true, false};
ghost use Rattle.collection_model.specs.FormatNumbers.{FormatNumbers};
ghost use Rattle.collection_model.specs.Collection.{postings_of, IsPostingList};
ghost use Rattle.pef_report.specs.Generated.{generated, state_behind};

use crate::draws::draw_list;
use no_memory::NoMemory;
use std::marker::Model;

/// The lists of a generated collection, one by one.
#[derive(Drop)]
pub struct Gen {
    state: u32,
    documents: u32,
    terms: u32,
    // The next list.
    next: u32,
}

impl Model for Gen {
    ghost use Rattle.std.specs.Prelude.{◌≤◌, ◌-◌};
    ghost use Rattle.pef_report.specs.Generated.{Generator, lists_drawn};

    ghost Value = { Generator };

    ghost view = { λ g. record {
      documents = g.documents;
      state = g.state;
      lists = lists_drawn g.documents g.next g.state (g.terms - g.next);
    } };

    ghost invariant = { λ g. g.next ≤ g.terms };
}

impl Gen {
    /// The generator of the t lists over n documents of a seed.
    pub fn new(seed: u32, n: u32, t: u32) -> Gen
        ensures documents { result.documents ≡ n }
        ensures state { result.state ≡ seed }
        ensures lists { result.lists ≡ (generated seed n t).lists }
    {
        Gen {
            state: seed,
            documents: n,
            terms: t,
            next: 0,
        }
    }

    /// The next list in place of what the vectors hold, or false behind the last one. Vectors that
    /// got no list are empty, and a refusal leaves the generator as it was.
    pub fn next_list(&mut self, docs: &mut Vec<u32>, freqs: &mut Vec<u32>) -> Result<bool, NoMemory>
        ensures same_length { result ≡ Ok true → length docs.new.items ≡ length freqs.new.items }
        ensures list { result ≡ Ok true → self.old.lists
            ≡ postings_of docs.new.items freqs.new.items ∷ self.new.lists }
        ensures documents { result ≡ Ok true → self.new.documents ≡ self.old.documents }
        ensures state { result ≡ Ok true → self.new.state
            ≡ state_behind self.old.state (1 + length docs.new.items) }
        // Every format holds it in which eight occurrences in each document are not too many.
        ensures posting_list { result ≡ Ok true
            → (format : FormatNumbers) → 8 * self.old.documents ≤ format.most_sum
            → IsPostingList format self.old.documents
            (postings_of docs.new.items freqs.new.items) }
        ensures ended { result ≡ Ok false → self.old.lists ≡ [] }
        ensures unchanged { result ≢ Ok true → self.new ≡ self.old }
        ensures no_list { result ≢ Ok true → (docs.new.items ≡ []) × (freqs.new.items ≡ []) }
    {
        let answer = self.draw_next(docs, freqs);
        if answer != Ok(true) {
            docs.clear();
            freqs.clear();
        }
        answer
    }

    // Draws the next list. Where there is none, or no memory, the vectors may hold anything.
    fn draw_next(&mut self, docs: &mut Vec<u32>, freqs: &mut Vec<u32>) -> Result<bool, NoMemory>
        ensures same_length { result ≡ Ok true → length docs.new.items ≡ length freqs.new.items }
        ensures list { result ≡ Ok true → self.old.lists
            ≡ postings_of docs.new.items freqs.new.items ∷ self.new.lists }
        ensures documents { result ≡ Ok true → self.new.documents ≡ self.old.documents }
        ensures state { result ≡ Ok true → self.new.state
            ≡ state_behind self.old.state (1 + length docs.new.items) }
        ensures posting_list { result ≡ Ok true
            → (format : FormatNumbers) → 8 * self.old.documents ≤ format.most_sum
            → IsPostingList format self.old.documents
            (postings_of docs.new.items freqs.new.items) }
        ensures ended { result ≡ Ok false → self.old.lists ≡ [] }
        ensures unchanged { result ≢ Ok true → self.new ≡ self.old }
    {
        if self.next == self.terms {
            return Ok(false);
        }
        let gap = 1 + self.next % 64;
        let state = draw_list(self.state, self.documents, gap, docs, freqs)?;
        self.state = state;
        self.next += 1;
        Ok(true)
    }
}
