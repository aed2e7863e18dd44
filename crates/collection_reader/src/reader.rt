ghost use Rattle.std.specs.Prelude.{◌≡◌, ◌≢◌, IsTrue, IsSome, ◌↔◌, []};
ghost use Rattle.collection_reader.specs.declared.phase.Phase.TheVariants.{Lists, Ended};
ghost use Rattle.collection_reader.specs.Starting.{AreStarted};
ghost use Rattle.collection_reader.specs.Reading.{StartsReading, ReadsList, ReadsSizes};
ghost use Rattle.collection_reader.specs.OneReader.{TriesList, TriesEnd};
ghost use Rattle.part_cost.specs.Formats.{numbers_of};

use crate::fault::{CollError, Rule};
use crate::held::has_byte;
use crate::phase::Phase;
use crate::position::Position;
use crate::sequences::{Expected, read_documents, read_frequencies, read_head, read_sizes};
use crate::start::start_files;
use held_pieces::Held;
use io_traits::{Depot, Slot};
use part_cost::Format;
use std::alloc::Global;
use std::marker::Model;

/// Reads a collection list by list, with the limits of a format, each of its three files once and
/// in pieces.
///
/// A refusal is kept: from then on each call answers it again and reads nothing. `Broken` names the
/// first rule that breaks, with its file, term and place; `Read` the slot whose start or read
/// failed; `NoMemory` comes where memory was refused, by the reader or by the depot.
#[derive(Drop)]
pub struct ListReader {
    format: Format,
    documents: u32,
    lists: u32,
    phase: Phase,
    refusal: Option<CollError>,
    docs: Held,
    freqs: Held,
    sizes: Held,
}

impl Model for ListReader {
    ghost use Rattle.std.specs.Prelude.{◌≤◌};
    ghost use Rattle.part_cost.specs.Formats.{numbers_of};
    ghost use Rattle.collection_reader.specs.Reading.{Reading};

    ghost Value = { Reading };

    ghost view = { λ r. record {
      format = numbers_of r.format;
      documents = r.documents;
      lists = r.lists;
      phase = r.phase;
      refusal = r.refusal;
      docs = r.docs;
      freqs = r.freqs;
      sizes = r.sizes;
    } };

    ghost invariant = { λ r. r.documents ≤ (numbers_of r.format).most_documents };
}

impl ListReader {
    /// Starts the files BASE.docs, BASE.freqs and BASE.sizes, in this order, and then reads the
    /// head of the first. It takes the room of one piece for each file; no later call takes room
    /// but in the vectors that it is lent.
    pub fn start<D: Depot>(
        alloc: Global,
        base: &str,
        depot: &mut D,
        format: Format,
    ) -> Result<ListReader, CollError>
        ensures { StartsReading (numbers_of format) (D.state depot.old) (D.state depot.new) base.now
            result }
    {
        start_files(alloc, base, depot)?;
        let mut docs = Held::new(alloc)?;
        let freqs = Held::new(alloc)?;
        let sizes = Held::new(alloc)?;
        let documents = read_head(&mut docs, depot, format)?;
        Ok(ListReader {
            format,
            documents,
            lists: 0,
            phase: Phase::Lists,
            refusal: None,
            docs,
            freqs,
            sizes,
        })
    }

    /// How many documents there are, at most the format's greatest number.
    pub fn documents(&self) -> u32
        ensures { result ≡ self.now.documents }
    {
        self.documents
    }

    /// Whether a call has found that there are no more lists.
    pub fn lists_ended(&self) -> bool
        ensures { IsTrue result ↔ (self.now.phase ≢ Lists) }
    {
        self.phase != Phase::Lists
    }

    /// Puts the next list into the two vectors, a document with its frequency at each place, and is
    /// true; or false where the file of documents ends. On every other answer both vectors are left
    /// empty.
    pub fn next_list<D: Depot>(
        &mut self,
        depot: &mut D,
        docs: &mut Vec<u32>,
        freqs: &mut Vec<u32>,
    ) -> Result<bool, CollError>
        requires started { AreStarted (D.state depot.old) }
        ensures list { ReadsList self.old self.new (D.state depot.old) (D.state depot.new)
            docs.new.items freqs.new.items result }
        // Once it has refused, it calls the depot no more.
        ensures refused { IsSome self.old.refusal → depot.new ≡ depot.old }
    {
        docs.clear();
        freqs.clear();
        if let Some(refusal) = self.refusal {
            return Err(refusal);
        }
        let result = self.try_list(depot, docs, freqs);
        if let Err(refusal) = result {
            docs.clear();
            freqs.clear();
            self.refusal = Some(refusal);
        }
        result
    }

    // What `next_list` does while no refusal is kept. A refusal may leave a part of the list in the
    // vectors.
    fn try_list<D: Depot>(
        &mut self,
        depot: &mut D,
        docs: &mut Vec<u32>,
        freqs: &mut Vec<u32>,
    ) -> Result<bool, CollError>
        requires started { AreStarted (D.state depot.old) }
        requires docs_empty { docs.old.items ≡ [] }
        requires freqs_empty { freqs.old.items ≡ [] }
        ensures { TriesList self.old self.new (D.state depot.old) (D.state depot.new) docs.new.items
            freqs.new.items result }
    {
        if !has_byte(&mut self.docs, Slot::Docs, depot)? {
            if self.phase == Phase::Lists {
                self.phase = Phase::Ended;
            }
            return Ok(false);
        }
        let term = self.lists;
        if term == u32::MAX {
            let at = Position {
                file: Slot::Docs,
                term,
                place: 0,
            };
            return Err(at.breaks(Rule::C9));
        }
        read_documents(&mut self.docs, depot, term, self.documents, docs)?;
        let expected = Expected {
            term,
            count: docs.len(),
        };
        read_frequencies(&mut self.freqs, depot, self.format, expected, freqs)?;
        self.lists = term + 1;
        Ok(true)
    }

    /// Puts the size of each document into the vector, once the lists have ended, where both other
    /// files end too. A refusal leaves the vector empty.
    pub fn finish<D: Depot>(&mut self, depot: &mut D, sizes: &mut Vec<u32>) -> Result<(), CollError>
        requires started { AreStarted (D.state depot.old) }
        requires ended { self.old.phase ≡ Ended }
        ensures sizes { ReadsSizes self.old self.new (D.state depot.old) (D.state depot.new)
            sizes.new.items result }
        // Once it has refused, it calls the depot no more.
        ensures refused { IsSome self.old.refusal → depot.new ≡ depot.old }
    {
        sizes.clear();
        if let Some(refusal) = self.refusal {
            return Err(refusal);
        }
        let result = self.try_end(depot, sizes);
        match result {
            Ok(()) => self.phase = Phase::Finished,
            Err(refusal) => {
                sizes.clear();
                self.refusal = Some(refusal);
            }
        }
        result
    }

    // What `finish` does while no refusal is kept. A refusal may leave some of the sizes in the
    // vector.
    fn try_end<D: Depot>(&mut self, depot: &mut D, sizes: &mut Vec<u32>) -> Result<(), CollError>
        requires started { AreStarted (D.state depot.old) }
        requires empty { sizes.old.items ≡ [] }
        ensures { TriesEnd self.old self.new (D.state depot.old) (D.state depot.new) sizes.new.items
            result }
    {
        if has_byte(&mut self.freqs, Slot::Freqs, depot)? {
            let at = Position {
                file: Slot::Freqs,
                term: self.lists,
                place: 0,
            };
            return Err(at.breaks(Rule::C10));
        }
        read_sizes(&mut self.sizes, depot, self.lists, self.documents, sizes)
    }
}
