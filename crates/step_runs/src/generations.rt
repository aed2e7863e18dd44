// What is printed of generated collections.
ghost use Rattle.std.specs.Prelude.{◌≡◌, ◌<◌};

use index_building::generated_words;
use index_file::Index;
use index_printing::print_generated;
use memory_io::MemSink;
use std::alloc::Global;
use std::marker::Brand;
use std::sync::ledger::{Blank, Ledger};
use step_count::Steps;

// The words of the generated collection of seed 1.
fn generated<L: Ledger>(alloc: Global, documents: u32, terms: u32, blank: Blank) -> Option<Vec<u64>>
    requires name { blank.name ≡ L.name }
    requires parts { blank.parts ≡ L.parts }
    requires some { 0 < L.parts }
{
    let mut steps = Steps::<L>::new(blank);
    generated_words(alloc, 1, documents, terms, &mut steps).ok()
}

// Whether this text is printed of that collection.
fn is_printed(alloc: Global, documents: u32, terms: u32, text: &str) -> Option<bool> {
    let words = generated::<Brand>(alloc, documents, terms, Blank::new(1))?;
    if words.len() > 10_000 {
        return None;
    }
    let mut out = MemSink::new(alloc, 100, Vec::new(alloc)).ok()?;
    match Index::view(&words) {
        Ok(index) => print_generated(alloc, &index, &mut out).ok()?,
        Err(_) => return None,
    }
    Some(out.bytes() == text.as_bytes())
}

#[test]
fn generated_collections_are_printed(rt: HostRuntime) {
    for (documents, terms, text) in [
        (
            3,
            2,
            "documents 3 terms 2 postings 5 bits 791\n2 6\n3 2:12 0:9 1:5\n3 2:12 0:9 1:5\n3 2:12 0:9 1:5\n",
        ),
        (
            3,
            1,
            "documents 3 terms 1 postings 3 bits 396\n1 5\n3 2:12 1:10 0:8\n3 2:12 1:10 0:8\n3 2:12 1:10 0:8\n",
        ),
        (0, 0, "documents 0 terms 0 postings 0 bits 0\n"),
    ] {
        let printed = is_printed(rt.alloc(), documents, terms, text);
        assert_eq!(rt; printed, Some(true), "{text}");
    }
}
