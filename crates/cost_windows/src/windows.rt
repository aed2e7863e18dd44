ghost use Rattle.std.specs.Prelude.{◌≡◌, ℕ, ◌≤◌, ◌<◌, ◌+◌, ◌*◌, length, slice_index, replicate, IsSome, IfOk};
ghost use Rattle.cost_windows.specs.WindowBounds.{window_bounds};
ghost use Rattle.cost_windows.specs.Windows.{new_windows, CountsMoves, HaveMoved, KeepCosts, StandTogether, window_end};

use crate::edge::Edge;
use crate::tables::{bounds, bounds_follow_rule};
use no_memory::NoMemory;
use part_cost::{Format, SpanCost, bounds_cover};
use std::alloc::Global;
use std::marker::Model;
use std::sync::ledger::Ledger;
use step_count::Steps;

/// For each bound a window, from a place of a sequence to the longest end whose part costs at most
/// the bound, in bits.
#[derive(Drop)]
pub struct Windows {
    format: Format,
    place: u64,
    /// Where the windows stand, up to the first that has come to the end of the sequence: all wider
    /// ones stand there too.
    positions: Vec<u64>,
    /// What the parts up to there cost.
    costs: Vec<u64>,
}

impl Model for Windows {
    ghost use Rattle.std.specs.Prelude.{◌≡◌, length};
    ghost use Rattle.cost_windows.specs.Windows as model;
    ghost use Rattle.cost_windows.specs.WindowBounds.{window_bounds};

    ghost Value = { model.Windows };

    ghost view = { λ w. model.windows_by (window_bounds w.format) w.place w.positions.items
        w.costs.items };

    ghost invariant = { λ w. model.AreWindows
        (model.windows_by (window_bounds w.format) w.place w.positions.items w.costs.items)
        × (length w.costs.items ≡ length w.positions.items) };
}

impl Windows {
    /// The windows of a format that were never moved, at place 0. Only this call takes memory.
    pub fn new(alloc: Global, format: Format) -> Result<Windows, NoMemory>
        ensures new { IfOk result (λ w. w ≡ new_windows (window_bounds format)) }
        // They keep no cost yet, so they may be moved by any cost.
        ensures keeps { IfOk result (λ w. (cost : ℕ → ℕ → ℕ) (n : ℕ) → KeepCosts cost n w) }
    {
        let positions = zeros(alloc, format)?;
        let costs = zeros(alloc, format)?;
        Ok(Windows {
            format,
            place: 0,
            positions,
            costs,
        })
    }

    /// Moves all windows to place i, which never falls, by counted costs of one and the same
    /// sequence. Each goes on from where it stood, and those that are wider than one at the end of
    /// the sequence are not looked at.
    pub fn advance<C: SpanCost, L: Ledger>(&mut self, i: u64, cost: &C, steps: &mut Steps<L>)
        requires same_format { self.old.bounds ≡ window_bounds (C.format_of cost.now) }
        requires forward { self.old.place ≤ i }
        requires within { i < C.count cost.now }
        requires same_cost { KeepCosts (C.cost_of cost.now) (C.count cost.now) self.old }
        ensures moved { HaveMoved (C.cost_of cost.now) (C.count cost.now) i self.old self.new }
        ensures counts { CountsMoves (C.count cost.now) self.old self.new steps.old steps.new }
    {
        bounds_cover();
        bounds_follow_rule();
        let bounds = bounds(self.format);
        let mut edge = Edge::at(i);
        let mut moved = 0;
        while moved < self.positions.len() && edge.end < cost.len() {
            edge = edge.stretched(i, self.positions[moved], bounds[moved], cost, steps);
            self.positions[moved] = edge.end;
            self.costs[moved] = edge.cost.unwrap_or(0);
            moved += 1;
        }
        self.positions.truncate(moved);
        self.costs.truncate(moved);
        self.place = i;
    }

    /// How many windows are looked at by themselves: those that are open and the first at the end
    /// of the sequence. All wider ones stand where the last of these stands.
    pub fn distinct(&self) -> usize
        ensures value { result ≡ self.now.distinct }
        ensures some { 0 < result }
        ensures within { result ≤ length self.now.bounds }
        ensures together { StandTogether self.now }
    {
        self.positions.len()
    }

    /// The longest end of window k, the place after the part's last number; None where even one
    /// number costs more than the window's bound.
    pub fn end(&self, k: usize) -> Option<u64>
        requires window { k < length self.now.bounds }
        ensures { result ≡ window_end self.now k }
    {
        let end = self.positions[self.held(k)];
        if self.place < end { Some(end) } else { None }
    }

    /// What the part up to the end of window k costs, in bits.
    pub fn cost(&self, k: usize) -> u64
        requires window { k < length self.now.bounds }
        requires found { IsSome (window_end self.now k) }
        ensures value { result ≡ slice_index self.now.costs k }
        ensures affordable { result ≤ slice_index self.now.bounds k }
    {
        self.costs[self.held(k)]
    }

    // The widest window that is kept and stands where window k stands.
    fn held(&self, k: usize) -> usize
        requires window { k < length self.now.bounds }
        ensures within { result < self.now.distinct }
        ensures position { slice_index self.now.positions result
            ≡ slice_index self.now.positions k }
        ensures cost { slice_index self.now.costs result ≡ slice_index self.now.costs k }
    {
        k.min(self.positions.len() - 1)
    }
}

// A zero for each bound of a format.
fn zeros(alloc: Global, format: Format) -> Result<Vec<u64>, NoMemory>
    ensures { IfOk result (λ v. v.items ≡ replicate (length (window_bounds format)) 0) }
{
    Ok(vec![in alloc; 0; bounds(format).len()]?)
}
