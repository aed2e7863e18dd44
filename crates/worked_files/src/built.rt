// Files that are built, and read again.
ghost use Rattle.std.specs.Prelude.{◌≡◌, ◌≤◌, ◌<◌, ◌+◌, ◌*◌, ◌^◌, length};
ghost use Rattle.std.specs.List.{range_with_len};
ghost use Rattle.part_cost.specs.Formats.{numbers_of};
ghost use Rattle.cost_windows.specs.WindowBounds.{window_bounds};
ghost use Rattle.index_file.specs.Builder.{most_words};

use crate::opened::next_posting;
use crate::words::{
    END, ONE_LIST, ONE_LIST_OF_TWO, ONE_PACKED_LIST, OPENING, PACKED_END, PACKED_OPENING,
};
use index_file::{Builder, Index};
use part_cost::{Format, Kind};
use std::alloc::Global;
use std::marker::Brand;
use std::process::Abort;
use std::sync::ledger::{Blank, Ledger};
use step_count::Steps;

// The words of that file in a format. Each part was counted.
fn counted_list<L: Ledger>(
    rt: &impl Abort,
    alloc: Global,
    format: Format,
    steps: &mut Steps<L>,
) -> Vec<u64>
    ensures counted { steps.old + 2 ≤ steps.new }
    ensures bounded { steps.new ≤ steps.old + 6 * length (window_bounds format) * 3 }
{
    let mut builder = Builder::new(alloc, 3, format).expect(rt, "memory");
    builder
        .add_list(&[0, 2], &[1, 5], steps)
        .expect(rt, "memory");
    builder.finish(&[4, 0, 7]).expect(rt, "words")
}

fn one_list<L: Ledger>(rt: &impl Abort, alloc: Global, format: Format, blank: Blank) -> Vec<u64>
    requires name { blank.name ≡ L.name }
    requires parts { blank.parts ≡ L.parts }
    requires some { 0 < L.parts }
{
    let mut steps = Steps::<L>::new(blank);
    counted_list(rt, alloc, format, &mut steps)
}

#[test]
fn builds_one_list(rt: HostRuntime) {
    for (format, want) in [
        (Format::One, ONE_LIST),
        (Format::Two, ONE_LIST_OF_TWO),
        (Format::Three, ONE_PACKED_LIST),
    ] {
        let words = one_list::<Brand>(&rt, rt.alloc(), format, Blank::new(1));
        assert_eq!(rt; words.as_slice(), want);
    }
}

#[test]
fn builds_nothing(rt: HostRuntime) {
    for (format, want) in [
        (Format::One, [OPENING, 1, 0, 0, 2, END]),
        (Format::Two, [OPENING, 2, 0, 0, 2, END]),
        (Format::Three, [PACKED_OPENING, 3, 0, 0, 0, PACKED_END]),
    ] {
        let builder = Builder::new(rt.alloc(), 0, format).expect(&rt, "memory");
        let words = builder.finish(&[]).expect(&rt, "words");
        assert_eq!(rt; words.as_slice(), want.as_slice());
    }
}

// The first documents, so many.
fn first_documents(rt: &impl Abort, alloc: Global, count: u32) -> Vec<u32>
    ensures { result.items ≡ range_with_len 0 count }
{
    let mut docs = Vec::new(alloc);
    for d in 0..count {
        docs.push(d).expect(rt, "memory");
    }
    docs
}

// The words of so many documents of size 0, each once in one list.
fn every_document<L: Ledger>(
    rt: &impl Abort,
    alloc: Global,
    format: Format,
    count: u32,
    blank: Blank,
) -> Vec<u64>
    requires name { blank.name ≡ L.name }
    requires parts { blank.parts ≡ L.parts }
    requires some { 0 < L.parts }
    requires few { count ≤ (numbers_of format).most_documents }
    ensures within { length result.items ≤ most_words }
{
    let mut steps = Steps::<L>::new(blank);
    let docs = first_documents(rt, alloc, count);
    let freqs = vec![in alloc; 1; count as usize].expect(rt, "memory");
    let sizes = vec![in alloc; 0; count as usize].expect(rt, "memory");
    let mut builder = Builder::new(alloc, count, format).expect(rt, "memory");
    builder
        .add_list(&docs, &freqs, &mut steps)
        .expect(rt, "memory");
    builder.finish(&sizes).expect(rt, "words")
}

// Whether the words are an index of one list, and so many documents are read from it, each once.
fn has_every_document(words: &[u64], count: u32) -> bool
    requires words { length words.now < 2 ^ 57 }
{
    let Ok(index) = Index::view(words) else {
        return false;
    };
    // Both sequences are one part each, and every place of it is taken.
    if index.terms() != 1 || index.parts_of_kind(Kind::Ones) != 2 || index.payload_bits() != 0 {
        return false;
    }
    let mut cursor = index.cursor(0);
    for d in 0..count {
        if next_posting(&mut cursor) != Some((d, 1)) {
            return false;
        }
    }
    next_posting(&mut cursor).is_none()
}

// A thousand documents: the entries of the second format make two words more. In a packed file the
// list takes 32 bits, and it and the directory a word each.
#[test]
fn reads_a_thousand_documents(rt: HostRuntime) {
    for (format, count) in [(Format::One, 514), (Format::Two, 516), (Format::Three, 508)] {
        let words = every_document::<Brand>(&rt, rt.alloc(), format, 1000, Blank::new(1));
        assert_eq!(rt; words.len(), count);
        assert!(rt; has_every_document(&words, 1000));
    }
}
