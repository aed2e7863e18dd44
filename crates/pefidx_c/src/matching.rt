ghost use Rattle.std.specs.Prelude.{◌≡◌, ◌≢◌, ℕ, ◌<◌, ◌^◌, length, Some, None, IfOk};
ghost use Rattle.index_file.specs.FileWords.{IsIndex};
ghost use Rattle.pefidx_c.specs.Asked.{collection_in, lists_of, refusal};
ghost use Rattle.pefidx_c.specs.Kept.{AreKept};
ghost use Rattle.pefidx_c.specs.Rooms.{put_in, given_in};
ghost use Rattle.pefidx_c.specs.StatusNumber.{number_of};
ghost use Rattle.pefidx_c.specs.declared.status.Status.{Status as EndOf};
ghost use Rattle.scan_plans.specs.Matches.{in_all, in_any};

use crate::cursors::{cursors_of, documents_are_below, refusal};
use crate::kept::index_of;
use crate::room::give;
use crate::status::Status;
use index_file::Index;
use no_memory::NoMemory;
use scan_plans::{and_docs, or_docs};
use std::alloc::Global;

/// The documents that are in the lists of all these terms, rising; none where there is no term. The
/// first are given, as many as there is room for, and how many there are.
#[unsafe(no_mangle)]
pub extern "C" fn pefidx_and(
    alloc: Global,
    words: &[u64],
    kept: &[u64],
    terms: &[u32],
    docs: &mut [u32],
    count: &mut usize,
) -> u32
    requires few { length words.now < 2 ^ 57 }
    requires index { IsIndex words.now }
    requires kept { AreKept words.now kept.now }
    ensures refused { (status : EndOf) → refusal (collection_in words.now) terms.now ≡ Some status
        → (result ≡ number_of status) × (docs.new ≡ docs.old) × (count.new ≡ count.old) }
    ensures no_memory { result ≡ number_of Status.NoMemory
        → (docs.new ≡ docs.old) × (count.new ≡ count.old) }
    ensures given { let c = collection_in words.now in let matches = in_all c.documents
        (lists_of c terms.now) in
        refusal c terms.now ≡ None → result ≢ number_of Status.NoMemory
        → (result ≡ number_of (given_in (length docs.old) (length matches)))
        × (docs.new ≡ put_in docs.old matches) × (count.new ≡ length matches) }
{
    let index = index_of(words, kept);
    if let Some(refused) = refusal(&index, terms) {
        return refused.number();
    }
    match docs_of_all(alloc, &index, terms) {
        Ok(matches) => give(matches.as_slice(), docs, count),
        Err(_) => Status::NoMemory.number(),
    }
}

/// The documents that are in the list of any of these terms, rising, each once. The first are
/// given, as many as there is room for, and how many there are.
#[unsafe(no_mangle)]
pub extern "C" fn pefidx_or(
    alloc: Global,
    words: &[u64],
    kept: &[u64],
    terms: &[u32],
    docs: &mut [u32],
    count: &mut usize,
) -> u32
    requires few { length words.now < 2 ^ 57 }
    requires index { IsIndex words.now }
    requires kept { AreKept words.now kept.now }
    ensures refused { (status : EndOf) → refusal (collection_in words.now) terms.now ≡ Some status
        → (result ≡ number_of status) × (docs.new ≡ docs.old) × (count.new ≡ count.old) }
    ensures no_memory { result ≡ number_of Status.NoMemory
        → (docs.new ≡ docs.old) × (count.new ≡ count.old) }
    ensures given { let c = collection_in words.now in let matches = in_any c.documents
        (lists_of c terms.now) in
        refusal c terms.now ≡ None → result ≢ number_of Status.NoMemory
        → (result ≡ number_of (given_in (length docs.old) (length matches)))
        × (docs.new ≡ put_in docs.old matches) × (count.new ≡ length matches) }
{
    let index = index_of(words, kept);
    if let Some(refused) = refusal(&index, terms) {
        return refused.number();
    }
    match docs_of_any(alloc, &index, terms) {
        Ok(matches) => give(matches.as_slice(), docs, count),
        Err(_) => Status::NoMemory.number(),
    }
}

// The documents that are in the lists of all these terms.
fn docs_of_all(alloc: Global, index: &Index<'_>, terms: &[u32]) -> Result<Vec<u32>, NoMemory>
    requires { refusal index.now.collection terms.now ≡ None }
    ensures { IfOk result (λ r. r.items ≡ in_all index.now.collection.documents
        (lists_of index.now.collection terms.now)) }
{
    documents_are_below(index);
    let mut cursors = cursors_of(alloc, index, terms)?;
    and_docs(alloc, cursors.as_mut_slice())
}

// The documents that are in the list of any of these terms.
fn docs_of_any(alloc: Global, index: &Index<'_>, terms: &[u32]) -> Result<Vec<u32>, NoMemory>
    requires { refusal index.now.collection terms.now ≡ None }
    ensures { IfOk result (λ r. r.items ≡ in_any index.now.collection.documents
        (lists_of index.now.collection terms.now)) }
{
    documents_are_below(index);
    let mut cursors = cursors_of(alloc, index, terms)?;
    or_docs(alloc, cursors.as_mut_slice())
}
