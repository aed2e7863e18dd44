// The cursors of terms that are asked together.
ghost use Rattle.std.specs.Prelude.{◌≡◌, ◌≤◌, ◌<◌, ℕ, map, length, nat_lt, None, IfOk};
ghost use Rattle.std.specs.List.{All, list_all};
ghost use Rattle.pefidx_c.specs.Asked.{lists_of, refusal};
ghost use Rattle.scan_plans.specs.Matches.{AreBelow};
ghost use Rattle.segments.specs.Laws.{IsInRange};

use crate::status::Status;
use cursor_api::DocCursor;
use index_file::Index;
use index_reading::ListSource;
use no_memory::NoMemory;
use std::alloc::Global;

// The most terms that are asked together.
pub(crate) const MOST_QUERY_TERMS: usize = 1024;

// Whether all of these numbers are below another.
pub(crate) fn all_below(numbers: &[u32], end: u32) -> bool
    ensures { result ≡ list_all (λ n. nat_lt n end) numbers.now }
{
    numbers.iter().all(|number| *number < end)
}

// How a question to these terms is refused.
pub(crate) fn refusal<S: ListSource>(source: &S, terms: &[u32]) -> Option<Status>
    ensures { result ≡ refusal (S.collection source.now) terms.now }
{
    if terms.len() > MOST_QUERY_TERMS {
        return Some(Status::TooManyTerms);
    }
    if !all_below(terms, source.terms()) {
        return Some(Status::NoTerm);
    }
    None
}

// A cursor at the start of each of these terms' lists.
pub(crate) fn cursors_of<S: ListSource>(
    alloc: Global,
    source: &S,
    terms: &[u32],
) -> Result<Vec<S::Cursor>, NoMemory>
    requires good { refusal (S.collection source.now) terms.now ≡ None }
    requires in_range { IsInRange (S.collection source.now) }
    ensures lists { IfOk result (λ cursors. map S.Cursor.list cursors.items
        ≡ lists_of (S.collection source.now) terms.now) }
    ensures start { IfOk result (λ cursors. All (λ c. S.Cursor.place c ≡ 0) cursors.items) }
    ensures few { length terms.now ≤ 1024 }
    ensures below { AreBelow (S.collection source.now).documents
        (lists_of (S.collection source.now) terms.now) }
{
    let mut cursors = Vec::with_capacity(alloc, terms.len())?;
    for term in terms {
        let cursor = source.list_cursor(alloc, *term)?;
        cursors.push(cursor)?;
    }
    Ok(cursors)
}

// The documents of the lists of an index are below their number.
pub(crate) fn documents_are_below(index: &Index<'_>)
    ensures { IsInRange index.now.collection }
{
    index.stands_for_a_collection();
}
