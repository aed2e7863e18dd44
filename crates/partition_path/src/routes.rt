ghost use Rattle.std.specs.Prelude.{◌≡◌, ◌+◌, ◌-◌, ◌^◌, ◌<◌, ◌≤◌, length, IfOk};
ghost use Rattle.partition_path.specs.Tables.{IsReached, AreLinked, IsOffered};
ghost use Rattle.partition_path.specs.Tables.{cost_to, start_to, new_table};
ghost use Rattle.partition_path.specs.Chains.{IsChain};

use no_memory::NoMemory;
use std::alloc::Global;
use std::marker::Model;

// A route to a place: what it costs, in bits, and where its last part starts.
#[derive(Clone, Copy)]
struct Route {
    cost: u64,
    start: u64,
}

// What stands where no route is known.
const NO_ROUTE: Route = Route {
    cost: u64::MAX,
    start: 0,
};

// How many places are passed at once where that many on the cost is still low.
const STRIDE: u64 = 8;

// For each place of a sequence the cheapest route that is known to it or to a place behind it: no
// place costs more than one behind it. A contract sees the list of these routes, from place 0 on.
#[derive(Drop)]
pub(crate) struct Routes {
    known: Vec<Route>,
}

impl Model for Routes {
    ghost use Rattle.partition_path.specs.Tables.{Table};

    ghost Value = { Table };

    ghost view = { λ r. r.known.items };
}

impl Routes {
    // Routes of a sequence of so many numbers, of which only its start is reached.
    pub(crate) fn new(alloc: Global, count: usize) -> Result<Routes, NoMemory>
        requires { count < 2 ^ 32 }
        ensures { IfOk result (λ t. t ≡ new_table count) }
    {
        let mut known = vec![in alloc; NO_ROUTE; count + 1]?;
        known[0] = Route { cost: 0, start: 0 };
        Ok(Routes { known })
    }

    // What the route to a place costs.
    pub(crate) fn cost(&self, place: u64) -> u64
        requires { place < length self.now }
        ensures { result ≡ cost_to self.now place }
    {
        self.known[place as usize].cost
    }

    // The last place.
    pub(crate) fn last(&self) -> u64
        requires some { 0 < length self.now }
        ensures { result ≡ length self.now - 1 }
    {
        self.known.len() as u64 - 1
    }

    // From a place on, the first behind which the next costs more than so much.
    pub(crate) fn furthest(&self, from: u64, most: u64) -> u64
        requires within { from < length self.now }
        ensures forward { from ≤ result }
        ensures within { result < length self.now }
        ensures cheap { cost_to self.now from ≤ most → cost_to self.now result ≤ most }
        ensures behind { result + 1 < length self.now → most < cost_to self.now (result + 1) }
    {
        let last = self.last();
        let mut place = from;
        while STRIDE <= last - place && self.cost(place + STRIDE) <= most {
            place += STRIDE;
        }
        while place < last && self.cost(place + 1) <= most {
            place += 1;
        }
        place
    }

    // Takes the route by a part from one place to another, at this total, for each place up to
    // there where it is cheaper.
    pub(crate) fn offer(&mut self, start: u64, end: u64, total: u64)
        requires after { start < end }
        requires within { end < length self.old }
        requires cheap { cost_to self.old start ≤ total }
        ensures { IsOffered start end total self.old self.new }
    {
        let mut place = end;
        while total < self.cost(place) {
            self.known[place as usize] = Route { cost: total, start };
            place -= 1;
        }
    }

    // Where the last part of the route to a place starts.
    fn start(&self, place: u64) -> u64
        requires { place < length self.now }
        ensures { result ≡ start_to self.now place }
    {
        self.known[place as usize].start
    }

    // The ends of the parts of the route to the last place.
    pub(crate) fn ends(&self, alloc: Global) -> Result<Vec<u64>, NoMemory>
        requires some { 0 < length self.now }
        requires reached { IsReached self.now (length self.now - 1) }
        requires linked { AreLinked self.now }
        ensures { IfOk result (λ v. IsChain self.now 0 (length self.now - 1) v.items) }
    {
        let mut ends = Vec::new(alloc);
        let mut end = self.last();
        while end > 0 {
            ends.push(end)?;
            end = self.start(end);
        }
        ends.reverse();
        Ok(ends)
    }
}
