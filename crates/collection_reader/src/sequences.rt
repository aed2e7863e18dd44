ghost use Rattle.std.specs.Prelude.{◌≡◌, ◌≤◌, [], IsTrue};
ghost use Rattle.part_cost.specs.Formats.{numbers_of};
ghost use Rattle.io_traits.specs.declared.fail.Slot.TheVariants.{Docs, Freqs, Sizes};
ghost use Rattle.collection_reader.specs.OneSequence.{ReadsHead, ReadsDocuments, ReadsFrequencies, ReadsToEnd};

use crate::fault::{CollError, Rule};
use crate::held::{has_byte, read_number};
use crate::position::Position;
use held_pieces::Held;
use io_traits::{Depot, Slot};
use part_cost::Format;

// Reads the number of documents at the head of the file of documents, at most as many as the format
// has room for.
pub(crate) fn read_head<D: Depot>(
    held: &mut Held,
    depot: &mut D,
    format: Format,
) -> Result<u32, CollError>
    requires { IsTrue ((D.state depot.old).started Docs) }
    ensures { ReadsHead (numbers_of format) held.old held.new (D.state depot.old)
        (D.state depot.new) result }
{
    let at = Position {
        file: Slot::Docs,
        term: 0,
        place: 0,
    };
    if read_number(held, at, depot)? != 1 {
        return Err(at.breaks(Rule::C2));
    }
    let documents = read_number(held, at, depot)?;
    if documents > format.most_documents() {
        return Err(at.breaks(Rule::C3));
    }
    Ok(documents)
}

// Reads the documents of a term, which lie below `documents`.
pub(crate) fn read_documents<D: Depot>(
    held: &mut Held,
    depot: &mut D,
    term: u32,
    documents: u32,
    docs: &mut Vec<u32>,
) -> Result<(), CollError>
    requires started { IsTrue ((D.state depot.old).started Docs) }
    requires empty { docs.old.items ≡ [] }
    ensures { ReadsDocuments documents term held.old held.new (D.state depot.old)
        (D.state depot.new) docs.new.items result }
{
    let head = Position {
        file: Slot::Docs,
        term,
        place: 0,
    };
    let length = read_number(held, head, depot)?;
    let mut last = 0;
    for place in 0..length {
        let at = Position { place, ..head };
        let document = read_number(held, at, depot)?;
        if document >= documents {
            return Err(at.breaks(Rule::C4));
        }
        if place > 0 && document <= last {
            return Err(at.breaks(Rule::C5));
        }
        docs.push(document)?;
        last = document;
    }
    Ok(())
}

// The list whose frequencies are to come: its term, and how many documents it has.
#[derive(Clone, Copy)]
pub(crate) struct Expected {
    pub(crate) term: u32,
    pub(crate) count: usize,
}

// Reads the frequencies of a term, as many as it has documents, whose sum is within the format's
// greatest.
pub(crate) fn read_frequencies<D: Depot>(
    held: &mut Held,
    depot: &mut D,
    format: Format,
    expected: Expected,
    freqs: &mut Vec<u32>,
) -> Result<(), CollError>
    requires started { IsTrue ((D.state depot.old).started Freqs) }
    requires empty { freqs.old.items ≡ [] }
    ensures { ReadsFrequencies (numbers_of format) expected.term expected.count held.old held.new
        (D.state depot.old) (D.state depot.new) freqs.new.items result }
{
    let Expected { term, count } = expected;
    let head = Position {
        file: Slot::Freqs,
        term,
        place: 0,
    };
    let length = read_number(held, head, depot)?;
    if length as usize != count {
        return Err(head.breaks(Rule::C6));
    }
    let mut sum = 0;
    for place in 0..length {
        let at = Position { place, ..head };
        let freq = read_number(held, at, depot)?;
        if freq == 0 {
            return Err(at.breaks(Rule::C7));
        }
        sum += u64::from(freq);
        if sum > format.most_sum() {
            return Err(at.breaks(Rule::C8));
        }
        freqs.push(freq)?;
    }
    Ok(())
}

// Reads the sizes of all documents, behind the lists of `terms` terms, to the end of their file.
pub(crate) fn read_sizes<D: Depot>(
    held: &mut Held,
    depot: &mut D,
    terms: u32,
    documents: u32,
    sizes: &mut Vec<u32>,
) -> Result<(), CollError>
    requires started { IsTrue ((D.state depot.old).started Sizes) }
    requires empty { sizes.old.items ≡ [] }
    ensures { ReadsToEnd documents terms held.old held.new (D.state depot.old) (D.state depot.new)
        sizes.new.items result }
{
    let head = Position {
        file: Slot::Sizes,
        term: terms,
        place: 0,
    };
    if read_number(held, head, depot)? != documents {
        return Err(head.breaks(Rule::C11));
    }
    for place in 0..documents {
        let size = read_number(held, Position { place, ..head }, depot)?;
        sizes.push(size)?;
    }
    if has_byte(held, Slot::Sizes, depot)? {
        let end = Position {
            place: documents,
            ..head
        };
        return Err(end.breaks(Rule::C12));
    }
    Ok(())
}
