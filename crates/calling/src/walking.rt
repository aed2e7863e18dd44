ghost use Rattle.std.specs.Prelude.{◌≡◌, ◌<◌, ◌^◌, length, sum_by};
ghost use Rattle.collection_model.specs.Collection.{list_of};

use cursor_api::DocCursor;
use index_file::Index;

/// How often a term occurs in all documents together: the sum of the frequencies of its list.
pub fn occurrences(index: &Index<'_>, term: u32) -> u64
    requires { term < length index.now.collection.lists }
    ensures { result ≡ sum_by (λ p. p.freq) (list_of index.now.collection term) }
{
    index.stands_for_a_collection();
    total(&mut index.cursor(term))
}

// The sum of the frequencies of a list, which its cursor walks from the start to the end.
fn total<C: DocCursor>(cursor: &mut C) -> u64
    requires start { C.place cursor.old ≡ 0 }
    requires within { sum_by (λ p. p.freq) (C.list cursor.old) < 2 ^ 64 }
    ensures { result ≡ sum_by (λ p. p.freq) (C.list cursor.old) }
{
    let mut total = 0;
    while let Some(_doc) = cursor.doc() {
        total += u64::from(cursor.freq());
        cursor.advance();
    }
    total
}
