ghost use Rattle.std.specs.Prelude.{◌≡◌, ℕ, ◌↔◌, ◌<◌, ◌≤◌, ◌&&◌, nat_le, false, [], ◌∷◌, IfOk};
ghost use Rattle.std.specs.List.{All};
ghost use Rattle.scan_plans.specs.Ranking.{IsFirstK};
ghost use Rattle.scan_plans.specs.Skips.{IsBarred};
ghost use Rattle.topk_pruning.specs.Terms.{beats};

use no_memory::NoMemory;
use scan_plans::TopK;
use std::alloc::Global;
use std::marker::Model;

// The first k documents so far, of those whose scores reach a floor.
#[derive(Drop)]
pub(crate) struct Shortlist {
    top: TopK,
    floor: u64,
}

impl Model for Shortlist {
    ghost use Rattle.topk_pruning.specs.Held.{RankingFrom};

    ghost Value = { RankingFrom };

    ghost view = { λ s. record { k = s.top.k; n = s.top.n; floor = s.floor; held = s.top.held } };
}

impl Shortlist {
    // Holds nothing, and has room for the lesser of k and n documents.
    pub(crate) fn new(alloc: Global, k: u32, n: u32, floor: u64) -> Result<Shortlist, NoMemory>
        requires some { 1 ≤ k }
        ensures { IfOk result (λ s. s ≡ record { k = k; n = n; floor = floor; held = [] }) }
    {
        let top = TopK::new(alloc, k, n)?;
        Ok(Shortlist { top, floor })
    }

    // The score that a later document must beat to be held, None where any score is held.
    pub(crate) fn bar(&self) -> Option<u64>
        ensures { (score : ℕ) → (beats result score ≡ false)
            ↔ IsBarred self.now.floor self.now.k self.now.held score }
    {
        bar_of(self.top.threshold(), self.floor)
    }

    // Keeps the first k of what is held and the new document.
    pub(crate) fn offer(&mut self, doc: u32, score: u64)
        requires in_range { doc < self.old.n }
        requires above { All (λ e. e.0 < doc) self.old.held }
        ensures k { self.new.k ≡ self.old.k }
        ensures n { self.new.n ≡ self.old.n }
        ensures floor { self.new.floor ≡ self.old.floor }
        ensures first { IsFirstK self.old.k ((doc, score) ∷ self.old.held) self.new.held }
    {
        self.top.offer(doc, score);
    }

    // What is held, in order.
    pub(crate) fn into_list(self) -> Result<Vec<(u32, u64)>, NoMemory>
        ensures { IfOk result (λ r. r.items ≡ self.held) }
    {
        self.top.into_list()
    }
}

// The score that is to be beaten: the least that is held, or the one below the floor where that is
// higher.
fn bar_of(least: Option<u64>, floor: u64) -> Option<u64>
    ensures { (score : ℕ) → beats result score ≡ (beats least score && nat_le floor score) }
{
    match least {
        Some(least) => Some(least.max(floor.saturating_sub(1))),
        None => floor.checked_sub(1),
    }
}
