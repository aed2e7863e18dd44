ghost use Rattle.std.specs.Prelude.{◌≡◌, ◌≤◌, length, sum, OnOk};
ghost use Rattle.collection_model.specs.Collection.{freqs_of, postings_of};
ghost use Rattle.segments.specs.Totals.{most_total};

use cursor_api::DocCursor;
use std::alloc::AllocError;

/// Reads the list of a cursor that stands at its start, in place of what the vectors hold: the
/// documents, and the frequency of each.
pub fn read_list<C: DocCursor>(
    cursor: &mut C,
    docs: &mut Vec<u32>,
    freqs: &mut Vec<u32>,
) -> Result<(), AllocError>
    requires start { C.place cursor.old ≡ 0 }
    ensures same_length { OnOk result (length docs.new.items ≡ length freqs.new.items) }
    ensures list { OnOk result (postings_of docs.new.items freqs.new.items ≡ C.list cursor.old) }
{
    docs.clear();
    freqs.clear();
    while let Some(doc) = cursor.doc() {
        docs.push(doc)?;
        freqs.push(cursor.freq())?;
        cursor.advance();
    }
    Ok(())
}

// The sum of the frequencies of the list of a cursor that stands at its start.
pub(crate) fn total_of<C: DocCursor>(cursor: &mut C) -> u64
    requires start { C.place cursor.old ≡ 0 }
    requires fits { sum (freqs_of (C.list cursor.old)) ≤ most_total }
    ensures { result ≡ sum (freqs_of (C.list cursor.old)) }
{
    let mut total = 0;
    while cursor.doc().is_some() {
        total += u64::from(cursor.freq());
        cursor.advance();
    }
    total
}
