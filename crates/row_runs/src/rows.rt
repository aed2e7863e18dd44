// A row that is played line by line.
use crate::playing::play;
use crate::runs::Program;
use crate::tallies::Tally;
use row_texts::{Block, Fault, Files, Given, Names, first_word, is_change, length_of};
use std::alloc::Global;

// A row up to a line.
#[derive(Drop)]
pub(crate) struct Player {
    alloc: Global,
    names: Names,
    /// The files that stand.
    files: Files,
    /// How many bytes a call moves at most.
    most: usize,
    /// The line `run` of which the lines are being read.
    block: Option<Block>,
    /// How many lines `run` were read.
    runs: u64,
    /// What tells of the row.
    label: String,
}

impl Player {
    // A row before its first line.
    pub(crate) fn new(alloc: Global, names: Names, label: String) -> Player {
        Player {
            alloc,
            names,
            files: Files::new(alloc),
            most: 8192,
            block: None,
            runs: 0,
            label,
        }
    }

    // Takes a line.
    pub(crate) fn take<P: Program>(&mut self, line: &str, tally: &mut Tally) -> Result<(), Fault> {
        let (word, rest) = first_word(line);
        if word == "let" {
            return self.names.define(self.alloc, rest);
        }
        let line = self.names.expand(self.alloc, line)?;
        self.take_expanded::<P>(&line, tally)
    }

    // Takes a line in which names are replaced.
    fn take_expanded<P: Program>(&mut self, line: &str, tally: &mut Tally) -> Result<(), Fault> {
        let (word, rest) = first_word(line);
        if is_change(word) {
            return self.change::<P>(word, rest, tally);
        }
        match word {
            "most" => self.take_most::<P>(rest, tally),
            "run" => self.begin_run::<P>(rest, tally),
            "run-nothing" => self.begin_nothing::<P>(tally),
            _ => self.take_behind_run(word, rest),
        }
    }

    // Takes a line of this first word that changes files.
    fn change<P: Program>(
        &mut self,
        word: &str,
        rest: &str,
        tally: &mut Tally,
    ) -> Result<(), Fault> {
        self.end_run::<P>(tally)?;
        self.files.change(self.alloc, word, rest)
    }

    // Takes a line behind a line `run`.
    fn take_behind_run(&mut self, word: &str, rest: &str) -> Result<(), Fault> {
        let block = self.block.as_mut().ok_or(Fault::Unread)?;
        if block.take(self.alloc, word, rest)? {
            Ok(())
        } else {
            Err(Fault::Unread)
        }
    }

    // Takes how many bytes a call moves at most.
    fn take_most<P: Program>(&mut self, rest: &str, tally: &mut Tally) -> Result<(), Fault> {
        self.end_run::<P>(tally)?;
        self.most = length_of(rest)?;
        Ok(())
    }

    // Begins a line `run` of these words.
    fn begin_run<P: Program>(&mut self, words: &str, tally: &mut Tally) -> Result<(), Fault> {
        self.end_run::<P>(tally)?;
        self.begin_block(Given::read(self.alloc, words, self.most)?);
        Ok(())
    }

    // Begins a line `run-nothing`.
    fn begin_nothing<P: Program>(&mut self, tally: &mut Tally) -> Result<(), Fault> {
        self.end_run::<P>(tally)?;
        self.begin_block(Given::nothing(self.alloc, self.most));
        Ok(())
    }

    // Begins runs that are given this.
    fn begin_block(&mut self, given: Given) {
        self.runs = self.runs.saturating_add(1);
        self.block = Some(Block::new(self.alloc, given));
    }

    // Makes the runs of the line `run` whose lines are read.
    fn end_run<P: Program>(&mut self, tally: &mut Tally) -> Result<(), Fault> {
        match self.block.take() {
            Some(block) => self.play::<P>(&block, tally),
            None => Ok(()),
        }
    }

    // Makes runs.
    fn play<P: Program>(&mut self, block: &Block, tally: &mut Tally) -> Result<(), Fault> {
        let label = self.run_label()?;
        play::<P>(self.alloc, &mut self.files, block, &label, tally)
    }

    // What tells of the line `run`: the row, and its number where it is not the first.
    fn run_label(&self) -> Result<String, Fault> {
        let (label, runs) = (&self.label, self.runs);
        if runs < 2 {
            Ok(label.clone()?)
        } else {
            Ok(format!(in self.alloc; "{label}, run {runs}")?)
        }
    }

    // Ends the row.
    pub(crate) fn end<P: Program>(mut self, tally: &mut Tally) -> Result<(), Fault> {
        self.end_run::<P>(tally)?;
        if self.runs == 0 {
            tally.tell(&self.label, "there is no run")?;
        }
        Ok(())
    }
}
