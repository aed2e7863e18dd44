ghost use Rattle.std.specs.Prelude.{◌≡◌, ◌<◌, ◌^◌, All};
ghost use Rattle.collection_reader.specs.Held.{lists_held, AreAligned};
ghost use Rattle.collection_reader.specs.ReadCollection.{ReadsCollection};
ghost use Rattle.collection_reader.specs.ReadLists.{AtFirstList, ReadsLists};
ghost use Rattle.collection_reader.specs.Starting.{AreStarted};
ghost use Rattle.part_cost.specs.Formats.{numbers_of};

use crate::collection::Collection;
use crate::fault::CollError;
use crate::reader::ListReader;
use io_traits::Depot;
use part_cost::{Format, formats_have_room};
use std::alloc::Global;

// The documents and the frequencies of each list.
#[derive(Drop)]
struct Lists {
    docs: Vec<Vec<u32>>,
    freqs: Vec<Vec<u32>>,
}

impl Lists {
    // The collection of these lists and sizes.
    fn into_collection(self, documents: u32, sizes: Vec<u32>) -> Collection
        requires { AreAligned self.docs.items self.freqs.items }
        ensures parts { result ≡ record {
          documents = documents;
          lists = lists_held self.docs.items
              self.freqs.items;
          sizes = sizes.items;
        } }
        ensures sizes_fit { All (λ s. s < 2 ^ 32) result.sizes }
    {
        Collection {
            documents,
            docs: self.docs,
            freqs: self.freqs,
            sizes,
        }
    }
}

/// Reads the collection whose files are BASE.docs, BASE.freqs and BASE.sizes, each in one pass,
/// with the limits of a format. All three are started before the first is read.
///
/// `Broken` names the first rule that breaks, with its file, term and place; `Read` the slot whose
/// start or read failed; `NoMemory` comes where memory was refused, by this function or by the
/// depot.
pub fn read_collection<D: Depot>(
    alloc: Global,
    base: &str,
    depot: &mut D,
    format: Format,
) -> Result<Collection, CollError>
    ensures { ReadsCollection (numbers_of format) (D.state depot.old) (D.state depot.new) base.now
        result }
{
    formats_have_room();
    let mut reader = ListReader::start(alloc, base, depot, format)?;
    let lists = read_lists(alloc, &mut reader, depot)?;
    let mut sizes = Vec::new(alloc);
    reader.finish(depot, &mut sizes)?;
    Ok(lists.into_collection(reader.documents(), sizes))
}

// Reads the lists up to the last.
fn read_lists<D: Depot>(
    alloc: Global,
    reader: &mut ListReader,
    depot: &mut D,
) -> Result<Lists, CollError>
    requires started { AreStarted (D.state depot.old) }
    requires first { AtFirstList reader.old }
    ensures { ReadsLists reader.old reader.new (D.state depot.old) (D.state depot.new) result }
{
    let mut lists = Lists {
        docs: Vec::new(alloc),
        freqs: Vec::new(alloc),
    };
    loop {
        let mut docs = Vec::new(alloc);
        let mut freqs = Vec::new(alloc);
        if !reader.next_list(depot, &mut docs, &mut freqs)? {
            return Ok(lists);
        }
        lists.docs.push(docs)?;
        lists.freqs.push(freqs)?;
    }
}
