// The runs of a line `run`, each compared.
use crate::comparing::Made;
use crate::runs::{Fails, Outcome, Program};
use crate::shown::Difference;
use crate::tallies::Tally;
use row_texts::{Block, Call, Damage, Damages, Each, Fault, Files, Wanted, has_name};
use std::alloc::Global;
use std::mem;

// The endings of the files of a collection.
const ENDINGS: [&str; 3] = ["docs", "freqs", "sizes"];

// What the runs of a block have in common.
#[derive(Clone, Copy)]
struct Stage<'a> {
    alloc: Global,
    block: &'a Block,
    /// The names that are looked at behind a run.
    names: &'a [String],
    /// What tells of the row.
    label: &'a str,
}

// Makes the runs of a block over files, and leaves those that stand behind them.
pub(crate) fn play<P: Program>(
    alloc: Global,
    files: &mut Files,
    block: &Block,
    label: &str,
    tally: &mut Tally,
) -> Result<(), Fault> {
    if !block.is_sound() {
        return tally.tell(label, "the lines behind `run` do not go together");
    }
    let mut names = Vec::new(alloc);
    add_names(alloc, &mut names, files, block)?;
    let stage = Stage {
        alloc,
        block,
        names: &names,
        label,
    };
    stage.make_all::<P>(files, tally)
}

impl Stage<'_> {
    // Makes all runs, and leaves the files that stand behind them; none where an earlier run does
    // not do all.
    fn make_all<P: Program>(self, files: &mut Files, tally: &mut Tally) -> Result<(), Fault> {
        for words in &self.block.given.earlier {
            if !self.make_earlier::<P>(words, files, tally)? {
                return Ok(());
            }
        }
        self.make_last::<P>(files, tally)
    }

    // Makes a run before the last, and leaves the files that stand behind it; no where it does not
    // do all.
    fn make_earlier<P: Program>(
        self,
        words: &[String],
        files: &mut Files,
        tally: &mut Tally,
    ) -> Result<bool, Fault> {
        let before = mem::replace(files, Files::new(self.alloc));
        let objects = Fails::none(self.alloc).objects(self.alloc, before, &self.block.given)?;
        let run = P::run(self.alloc, words, objects);
        if !run.is_done() {
            return self.tell_not_done(tally);
        }
        *files = self.files_left(&run)?;
        Ok(true)
    }

    // Tells that an earlier run does not do all; no.
    fn tell_not_done(self, tally: &mut Tally) -> Result<bool, Fault> {
        let found = String::from_str(self.alloc, "an earlier run does not end with 0")?;
        tally.take_run(self.label, Err(Difference::Told(found)))
    }

    // Makes the last run, or the runs in its place, and leaves the files that stand behind it.
    fn make_last<P: Program>(self, files: &mut Files, tally: &mut Tally) -> Result<(), Fault> {
        if self.block.has_turns() {
            return self.make_turns::<P>(files, tally);
        }
        let run = self.make_whole::<P>(files, tally)?;
        *files = self.files_left(&run)?;
        Ok(())
    }

    // Makes a run in which no call fails but those that always do.
    fn make_whole<P: Program>(self, files: &Files, tally: &mut Tally) -> Result<Outcome, Fault> {
        let run = self.run::<P>(files, None)?;
        let compared = self.made(&run, files).compare();
        tally.take_run(self.label, compared)?;
        Ok(run)
    }

    // Makes a run for each change of a file and each call that fails.
    fn make_turns<P: Program>(self, files: &Files, tally: &mut Tally) -> Result<(), Fault> {
        let damages = &self.block.given.damages;
        if damages.is_empty() {
            return self.fail_in_turn::<P>(files, tally);
        }
        for damaged in damages {
            self.make_damages::<P>(files, damaged, tally)?;
        }
        Ok(())
    }

    // Makes the runs for each change of one file.
    fn make_damages<P: Program>(
        self,
        files: &Files,
        damaged: &Damages,
        tally: &mut Tally,
    ) -> Result<(), Fault> {
        for damage in &damaged.list {
            self.make_damaged::<P>(files, &damaged.name, *damage, tally)?;
        }
        Ok(())
    }

    // Makes the runs over files of which one is changed.
    fn make_damaged<P: Program>(
        self,
        files: &Files,
        name: &str,
        damage: Damage,
        tally: &mut Tally,
    ) -> Result<(), Fault> {
        let label = self.damage_label(name, damage)?;
        let stage = Stage {
            label: &label,
            ..self
        };
        let mut changed = files.copy(self.alloc)?;
        match damage.make(&mut changed, name) {
            Ok(()) => stage.fail_in_turn::<P>(&changed, tally),
            Err(_) => tally.tell(&label, "there is no such place"),
        }
    }

    // What tells of the runs over files of which one is changed.
    fn damage_label(self, name: &str, damage: Damage) -> Result<String, Fault> {
        let (label, told) = (self.label, damage.told(self.alloc, name)?);
        Ok(format!(in self.alloc; "{label}, {told}")?)
    }

    // Makes a run for each call that fails, or one where none does.
    fn fail_in_turn<P: Program>(self, files: &Files, tally: &mut Tally) -> Result<(), Fault> {
        let turns = &self.block.given.turns;
        if turns.is_empty() {
            self.make_whole::<P>(files, tally)?;
        }
        for each in turns {
            self.fail_each::<P>(files, *each, tally)?;
        }
        Ok(())
    }

    // Makes a run for each call of a kind that fails, up to the first that differs.
    fn fail_each<P: Program>(
        self,
        files: &Files,
        each: Each,
        tally: &mut Tally,
    ) -> Result<(), Fault> {
        for number in each.from..=each.last() {
            if self.fail_one::<P>(files, each, number, tally)? {
                return Ok(());
            }
        }
        if each.to.is_none() {
            return tally.tell(self.label, "calls fail without an end");
        }
        Ok(())
    }

    // Makes a run in which the call of this number is to fail; whether none comes behind it: it
    // differs, or there was no such call.
    fn fail_one<P: Program>(
        self,
        files: &Files,
        each: Each,
        number: u64,
        tally: &mut Tally,
    ) -> Result<bool, Fault> {
        let label = self.turn_label(each, number)?;
        let run = self.run::<P>(files, Some((each.call, number)))?;
        let compared = self.compare_turn(&run, files, each, number);
        let is_same = tally.take_run(&label, compared)?;
        Ok(!is_same || number > run.calls(each.call))
    }

    // What tells of a run in which the call of this number is to fail.
    fn turn_label(self, each: Each, number: u64) -> Result<String, Fault> {
        let (label, call) = (self.label, each.call.name());
        Ok(format!(in self.alloc; "{label}: {call} {number} fails")?)
    }

    // Compares a run in which the call of this number was to fail.
    fn compare_turn(
        self,
        run: &Outcome,
        files: &Files,
        each: Each,
        number: u64,
    ) -> Result<(), Difference> {
        if number > run.calls(each.call) {
            return self.compare_last(run, files, each, number);
        }
        let made = Made {
            failing: Some((each.call, number)),
            whole: self.block.whole.as_ref(),
            ..self.made(run, files)
        };
        made.compare()
    }

    // Compares a run in which the call of this number was to fail and was not made.
    fn compare_last(
        self,
        run: &Outcome,
        files: &Files,
        each: Each,
        number: u64,
    ) -> Result<(), Difference> {
        let (Some(wanted), None) = (&self.block.whole, each.to) else {
            return self.tell_calls(run.calls(each.call));
        };
        let failed = number.saturating_sub(each.from);
        if failed < each.least {
            return self.tell_failed(failed, each.least);
        }
        let made = Made {
            wanted,
            ..self.made(run, files)
        };
        made.compare()
    }

    // That there are only so many calls.
    fn tell_calls(self, calls: u64) -> Result<(), Difference> {
        let found = format!(in self.alloc; "there are only {calls} calls")?;
        Err(Difference::Told(found))
    }

    // That only so many calls fail.
    fn tell_failed(self, failed: u64, least: u64) -> Result<(), Difference> {
        let found = format!(in self.alloc; "calls: came {failed} wanted {least} at least")?;
        Err(Difference::Told(found))
    }

    // Makes a run of the last words over these files.
    fn run<P: Program>(
        self,
        files: &Files,
        failing: Option<(Call, u64)>,
    ) -> Result<Outcome, Fault> {
        let given = &self.block.given;
        let fails = Fails::of(self.alloc, given, failing)?;
        let objects = fails.objects(self.alloc, files.copy(self.alloc)?, given)?;
        Ok(P::run(self.alloc, &given.words, objects))
    }

    // The files that are looked at, as a run leaves them.
    fn files_left(self, run: &Outcome) -> Result<Files, Fault> {
        let mut files = Files::new(self.alloc);
        for name in self.names {
            if let Some(bytes) = run.objects.depot.file(name) {
                files.add(self.alloc, name, bytes)?;
            }
        }
        Ok(files)
    }
}

impl<'a> Stage<'a> {
    // A run that was made over these files, in which no call failed but those that always do.
    fn made<'b>(self, outcome: &'b Outcome, before: &'b Files) -> Made<'b>
    where
        'a: 'b,
    {
        Made {
            alloc: self.alloc,
            outcome,
            before,
            names: self.names,
            given: &self.block.given,
            failing: None,
            wanted: &self.block.wanted,
            whole: None,
        }
    }
}

// Adds the names that are looked at: of the files that stand, of the words of the runs, also with
// the endings of a collection's files, and those of which something is said.
fn add_names(
    alloc: Global,
    names: &mut Vec<String>,
    files: &Files,
    block: &Block,
) -> Result<(), Fault> {
    add_entries(alloc, names, files.entries())?;
    for words in &block.given.earlier {
        add_words(alloc, names, words)?;
    }
    add_words(alloc, names, &block.given.words)?;
    add_left(alloc, names, &block.wanted)?;
    match &block.whole {
        Some(whole) => add_left(alloc, names, whole),
        None => Ok(()),
    }
}

// Adds the names of files.
fn add_entries(
    alloc: Global,
    names: &mut Vec<String>,
    files: &[(String, Vec<u8>)],
) -> Result<(), Fault> {
    for (name, _) in files {
        add_name(alloc, names, name)?;
    }
    Ok(())
}

// Adds the names of which something is said.
fn add_left(alloc: Global, names: &mut Vec<String>, wanted: &Wanted) -> Result<(), Fault> {
    for (name, _) in &wanted.left {
        add_name(alloc, names, name)?;
    }
    Ok(())
}

// Adds the words of a run, also with the endings of a collection's files.
fn add_words(alloc: Global, names: &mut Vec<String>, words: &[String]) -> Result<(), Fault> {
    for word in words {
        add_name(alloc, names, word)?;
        add_endings(alloc, names, word)?;
    }
    Ok(())
}

// Adds a word with the endings of a collection's files.
fn add_endings(alloc: Global, names: &mut Vec<String>, word: &str) -> Result<(), Fault> {
    for ending in &ENDINGS {
        let name = format!(in alloc; "{word}.{ending}")?;
        add_name(alloc, names, &name)?;
    }
    Ok(())
}

// Adds a name that is not there.
fn add_name(alloc: Global, names: &mut Vec<String>, name: &str) -> Result<(), Fault> {
    if !has_name(names, name) {
        names.push(String::from_str(alloc, name)?)?;
    }
    Ok(())
}
