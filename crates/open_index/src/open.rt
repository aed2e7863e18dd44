ghost use Rattle.std.specs.Prelude.{◌≡◌, ◌<◌, ◌^◌, length, IfErr, IfOk};
ghost use Rattle.part_cost.specs.declared.formats.Format.TheVariants.{Three};
ghost use Rattle.part_cost.specs.Formats.{numbers_of};
ghost use Rattle.index_file.specs.FileWords.{IsIndex, Spells};
ghost use Rattle.index_file.specs.FirstBroken.{IsFirstBroken};
ghost use Rattle.index_file.specs.IndexView as of;

use index_file::{Index, OpenFault, list_starts};
use no_memory::NoMemory;
use packed_list::{ListSink, NoLists};
use std::alloc::Global;
use std::marker::Model;

/// The words of a file that were found to be an index.
#[derive(Drop)]
pub struct CheckedWords {
    words: Vec<u64>,
}

impl Model for CheckedWords {
    ghost use Rattle.std.specs.Prelude.{◌<◌, ◌^◌, length};
    ghost use Rattle.index_file.specs.FileWords.{IsIndex};
    ghost use Rattle.index_file.specs.IndexView.{IndexView, index_stated};

    ghost Value = { IndexView };

    ghost view = { λ checked. index_stated checked.words.items };

    ghost invariant = { λ checked. (length checked.words.items < 2 ^ 57)
        × IsIndex checked.words.items };
}

/// An index with the words of its file, and where its lists begin, as far as it is kept.
#[derive(Drop)]
pub struct OpenIndex {
    words: Vec<u64>,
    // Where the lists of a packed file begin, all that is kept of it.
    starts: Vec<u64>,
}

impl Model for OpenIndex {
    ghost use Rattle.std.specs.Prelude.{◌≡◌, ◌<◌, ◌^◌, length};
    ghost use Rattle.index_file.specs.FileWords.{IsIndex};
    ghost use Rattle.index_file.specs.ListStarts.{kept_starts};
    ghost use Rattle.index_file.specs.IndexView.{IndexView, index_stated, with_starts};

    ghost Value = { IndexView };

    ghost view = { λ opened. with_starts (index_stated opened.words.items) opened.starts.items };

    ghost invariant = { λ opened. (length opened.words.items < 2 ^ 57)
        × IsIndex opened.words.items
        × (opened.starts.items ≡ kept_starts opened.words.items) };
}

impl CheckedWords {
    /// The index that the words are, or their first broken check.
    pub fn open(words: Vec<u64>) -> Result<CheckedWords, OpenFault>
        requires { length words.items < 2 ^ 57 }
        ensures ok { IfOk result (λ index. Spells (numbers_of index.format) words.items
            index.collection index.parts) }
        ensures no_index { IfErr result (λ f. ¬ IsIndex words.items) }
        ensures first { IfErr result (λ f. IsFirstBroken words.items f) }
    {
        CheckedWords::open_into(words, &mut NoLists)
    }

    /// The index that `open` gives. The lists of a packed file are given to what takes lists.
    pub fn open_into<L: ListSink>(words: Vec<u64>, lists: &mut L) -> Result<CheckedWords, OpenFault>
        requires { length words.items < 2 ^ 57 }
        ensures ok { IfOk result (λ index. Spells (numbers_of index.format) words.items
            index.collection index.parts) }
        ensures no_index { IfErr result (λ f. ¬ IsIndex words.items) }
        ensures first { IfErr result (λ f. IsFirstBroken words.items f) }
        ensures took { IfOk result (λ index. index.format ≡ Three
            → L.took lists.old index.collection 0
            → L.took lists.new index.collection (length index.collection.lists)) }
    {
        Index::view_into(&words, lists)?;
        Ok(CheckedWords { words })
    }

    /// The index, with a number in memory for each list of a packed file: where the list begins. By
    /// two of them a list is found, and not by the directory. A file that has fewer than two words
    /// for each of these numbers gets none.
    pub fn with_starts(self, alloc: Global) -> Result<OpenIndex, NoMemory>
        ensures { IfOk result (λ index. index ≡ of.with_starts self (of.starts_of self)) }
    {
        let starts = list_starts(alloc, &self.words)?;
        Ok(OpenIndex {
            words: self.words,
            starts,
        })
    }
}

impl OpenIndex {
    /// The index: nothing is checked.
    pub fn index(&self) -> Index<'_>
        ensures { result ≡ self.now }
    {
        Index::with_starts(&self.words, &self.starts)
    }
}
