// Lines `run`, with those behind them.
use crate::calls::Group;
use crate::faults::Fault;
use crate::given::Given;
use crate::wanted::{Told, Wanted};
use std::alloc::Global;

/// A line `run`, and the lines behind it.
#[derive(Drop)]
pub struct Block {
    pub given: Given,
    pub wanted: Wanted,
    /// What stands after a run in which no call fails, behind a line `whole`.
    pub whole: Option<Wanted>,
}

impl Block {
    /// Runs of which nothing more is said.
    pub fn new(alloc: Global, given: Given) -> Block {
        Block {
            given,
            wanted: Wanted::new(alloc),
            whole: None,
        }
    }

    /// Takes a line behind the line `run`; no where it is none of these.
    pub fn take(&mut self, alloc: Global, word: &str, line: &str) -> Result<bool, Fault> {
        if let Some(whole) = &mut self.whole {
            return whole.take(alloc, word, line);
        }
        if word == "whole" && line.is_empty() {
            self.whole = Some(Wanted::new(alloc));
            return Ok(true);
        }
        if self.given.take(alloc, word, line)? {
            return Ok(true);
        }
        self.wanted.take(alloc, word, line)
    }

    /// Whether each of its lines has a use: what stands after a whole run is asked for by calls
    /// that fail until one is whole, and by what is written in turn.
    pub fn is_sound(&self) -> bool {
        let in_turn = !self.wanted.in_turn.is_empty();
        let out_in_turn = matches!(self.wanted.out, Some(Told::InTurn));
        let asks = in_turn | out_in_turn | self.given.ends_whole();
        match &self.whole {
            None => !asks,
            Some(whole) => {
                asks && (!in_turn || self.writes_in_turn(whole))
                    && (!out_in_turn || self.prints_in_turn(whole))
            }
        }
    }

    // Whether calls fail that write files, and these have to have bytes after a whole run.
    fn writes_in_turn(&self, whole: &Wanted) -> bool {
        for name in &self.wanted.in_turn {
            if whole.bytes_left(name).is_none() {
                return false;
            }
        }
        self.given.fails_in_turn(Group::Writing)
    }

    // Whether writes on out fail, and it has to have a text after a whole run.
    fn prints_in_turn(&self, whole: &Wanted) -> bool {
        whole.text_on_out().is_some() && self.given.fails_in_turn(Group::Out)
    }

    /// Whether more than one run is made.
    pub fn has_turns(&self) -> bool {
        !self.given.turns.is_empty() || !self.given.damages.is_empty()
    }
}
