ghost use Rattle.std.specs.Prelude.{◌≡◌, ◌≢◌, ◌⊎◌, ◌<◌, ℕ, List, length, Some};
ghost use Rattle.collection_model.specs.Collection.{Collection as Lists};
ghost use Rattle.collection_model.specs.FormatNumbers.{format_three};
ghost use Rattle.collection_reader.specs.FirstFault.{IsFirstFault};
ghost use Rattle.collection_reader.specs.Starting.{turn};
ghost use Rattle.collection_reader.specs.declared.fault.Fault.{Fault as FaultOf};
ghost use Rattle.index_building.specs.WordsOfFiles.{words_built};
ghost use Rattle.pefidx_c.specs.BuiltWords.{AreWordsOf, WouldBeTooMany};
ghost use Rattle.pefidx_c.specs.PackedCollections.{files_given, AreFilesOf, PacksFiles, rule_number, collection_fault_of};
ghost use Rattle.pefidx_c.specs.Rooms.{put_in, given_in};
ghost use Rattle.pefidx_c.specs.StatusNumber.{number_of};

use crate::room::give;
use crate::status::Status;
use collection_reader::{Fault, Rule};
use index_building::{BuildError, build_words};
use io_traits::Slot;
use lent_files::{LentFile, LentFiles};
use part_cost::Format;
use std::alloc::Global;
use std::marker::Brand;
use std::sync::ledger::{Blank, Ledger};
use step_count::Steps;

/// The first rule that the files of a collection break: its number, 1 to 12, the number of the
/// file, 0 to 2, and the term and the place at which it breaks.
#[repr(C)]
#[derive(Clone, Copy, Drop)]
pub struct CollectionFault {
    pub rule: u32,
    pub file: u32,
    pub term: u32,
    pub place: u32,
}

/// The words of the packed file of the collection whose three files have these bytes. The first are
/// given, as many as there is room for, and how many there are. Where the bytes are of no
/// collection, the first rule that breaks is told.
#[unsafe(no_mangle)]
pub extern "C" fn pefidx_pack(
    alloc: Global,
    docs: &[u8],
    freqs: &[u8],
    sizes: &[u8],
    words: &mut [u64],
    count: &mut usize,
    fault: &mut CollectionFault,
) -> u32
    ensures first_fault { result ≡ number_of Status.NoCollection
        → (broken : FaultOf)
        × IsFirstFault format_three (files_given docs.now freqs.now sizes.now) (Some broken)
        × (fault.new ≡ collection_fault_of broken)
        × (words.new ≡ words.old) × (count.new ≡ count.old) }
    ensures broken { (broken : FaultOf)
        → IsFirstFault format_three (files_given docs.now freqs.now sizes.now) (Some broken)
        → (result ≡ number_of Status.NoCollection) ⊎ (result ≡ number_of Status.NoMemory) }
    ensures no_memory { result ≡ number_of Status.NoMemory
        → (words.new ≡ words.old) × (count.new ≡ count.old) × (fault.new ≡ fault.old) }
    ensures too_large { result ≡ number_of Status.TooLarge
        → (c : Lists) × AreFilesOf (files_given docs.now freqs.now sizes.now) c
        × WouldBeTooMany format_three c count.new
        × (words.new ≡ words.old) × (fault.new ≡ fault.old) }
    ensures given { result ≢ number_of Status.NoCollection → result ≢ number_of Status.NoMemory
        → result ≢ number_of Status.TooLarge
        → (c : Lists) × AreFilesOf (files_given docs.now freqs.now sizes.now) c
        × ((made : List ℕ) × AreWordsOf format_three c made
        × (result ≡ number_of (given_in (length words.old) (length made)))
        × (words.new ≡ put_in words.old made) × (count.new ≡ length made)
        × (fault.new ≡ fault.old)) }
{
    match packed(alloc, docs, freqs, sizes) {
        Ok(made) => give(made.as_slice(), words, count),
        Err(BuildError::Broken(found)) => {
            *fault = told(found);
            Status::NoCollection.number()
        }
        Err(BuildError::TooLarge(would_be)) => {
            *count = would_be as usize;
            Status::TooLarge.number()
        }
        Err(BuildError::NoMemory) => Status::NoMemory.number(),
        Err(BuildError::Read(_)) => unreachable!(),
    }
}

// A broken rule as it is told.
fn told(fault: Fault) -> CollectionFault
    ensures { result ≡ collection_fault_of fault }
{
    CollectionFault {
        rule: rule_number(fault.rule),
        file: file_number(fault.file),
        term: fault.term,
        place: fault.place,
    }
}

// The number of a rule.
fn rule_number(rule: Rule) -> u32
    ensures { result ≡ rule_number rule }
{
    match rule {
        Rule::C1 => 1,
        Rule::C2 => 2,
        Rule::C3 => 3,
        Rule::C4 => 4,
        Rule::C5 => 5,
        Rule::C6 => 6,
        Rule::C7 => 7,
        Rule::C8 => 8,
        Rule::C9 => 9,
        Rule::C10 => 10,
        Rule::C11 => 11,
        Rule::C12 => 12,
    }
}

// The number of a file; of a collection there are the first three.
fn file_number(file: Slot) -> u32
    ensures { result ≡ turn file }
{
    match file {
        Slot::Docs => 0,
        Slot::Freqs => 1,
        Slot::Sizes => 2,
        Slot::Index => 3,
        Slot::Side => 4,
        Slot::Map => 5,
    }
}

// The words, of which the part costs are counted for nobody.
fn packed(alloc: Global, docs: &[u8], freqs: &[u8], sizes: &[u8]) -> Result<Vec<u64>, BuildError>
    ensures { PacksFiles (files_given docs.now freqs.now sizes.now) (words_built result) }
{
    packed_counted::<Brand>(alloc, docs, freqs, sizes, Blank::new(1))
}

// The words, with a counter of their own.
fn packed_counted<L: Ledger>(
    alloc: Global,
    docs: &[u8],
    freqs: &[u8],
    sizes: &[u8],
    blank: Blank,
) -> Result<Vec<u64>, BuildError>
    requires name { blank.name ≡ L.name }
    requires parts { blank.parts ≡ L.parts }
    requires some { 0 < L.parts }
    ensures { PacksFiles (files_given docs.now freqs.now sizes.now) (words_built result) }
{
    let mut steps = Steps::<L>::new(blank);
    let files = [
        LentFile {
            name: ".docs",
            bytes: docs,
        },
        LentFile {
            name: ".freqs",
            bytes: freqs,
        },
        LentFile {
            name: ".sizes",
            bytes: sizes,
        },
    ];
    let mut depot = LentFiles::new(&files);
    build_words(alloc, "", &mut depot, Format::Three, &mut steps)
}
