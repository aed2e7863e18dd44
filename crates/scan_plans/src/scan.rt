ghost use Rattle.std.specs.Prelude.{◌≡◌, ℕ, ◌≤◌, ◌<◌, true, false, map, min, IfNone, IfSome};
ghost use Rattle.std.specs.List.{All, filter_map, reduce};
ghost use Rattle.scan_plans.specs.Scan.{doc_at, HasPassed, in_each};

use cursor_api::{DocCursor, next_geq_is_first};

// The least document at which a cursor stands, None where all are at their ends.
pub(crate) fn least_doc<C: DocCursor>(cursors: &[C]) -> Option<u32>
    ensures { result ≡ reduce min (filter_map (λ c. doc_at (C.list c) (C.place c)) cursors.now) }
{
    cursors.iter().filter_map(|cursor| cursor.doc()).min()
}

// Moves the cursors to a document that no list has passed, until one stands after it: None where a
// list ends before it, else the document at which the last of them stands.
pub(crate) fn seek_all<C: DocCursor>(cursors: &mut [C], candidate: u32) -> Option<u32>
    requires passed { All (λ c. HasPassed candidate (C.list c) (C.place c)) cursors.old }
    ensures lists { map C.list cursors.new ≡ map C.list cursors.old }
    ensures passed { All (λ c. HasPassed candidate (C.list c) (C.place c)) cursors.new }
    ensures ends { IfNone result ((d : ℕ) → candidate ≤ d
        → in_each d (map C.list cursors.old) ≡ false) }
    ensures later { IfSome result (λ next. (candidate ≤ next)
        × ((d : ℕ) → candidate ≤ d → d < next → in_each d (map C.list cursors.old) ≡ false)) }
    ensures agreed { result ≡ Some candidate → in_each candidate (map C.list cursors.old) ≡ true }
{
    next_geq_is_first();
    for cursor in cursors.iter_mut() {
        cursor.next_geq(candidate);
        match cursor.doc() {
            Some(doc) if doc == candidate => {}
            other => return other,
        }
    }
    Some(candidate)
}
