ghost use Rattle.std.specs.Prelude.{◌≡◌, ◌*◌, ◌<◌, Some};
ghost use Rattle.scan_plans.specs.Matches.{freq_of_doc};
ghost use Rattle.scan_plans.specs.Scan.{doc_at, StandsFrom, HasPassed};
ghost use Rattle.topk_pruning.specs.Terms.{beats};

use cursor_api::DocCursor;
use scan_plans::{cursors_stand, cursors_tell};

// Whether a score beats the bar. Any score does while there is none.
pub(crate) fn is_above(score: u64, bar: Option<u64>) -> bool
    ensures { result ≡ beats bar score }
{
    match bar {
        Some(bar) => bar < score,
        None => true,
    }
}

// The first document of a list from `from` on, None where there is none. The cursor has passed no
// document from `from` on, and moves to that document.
pub(crate) fn doc_from<C: DocCursor>(cursor: &mut C, from: u32) -> Option<u32>
    requires passed { HasPassed from (C.list cursor.old) (C.place cursor.old) }
    ensures list { C.list cursor.new ≡ C.list cursor.old }
    ensures stand { StandsFrom from (C.list cursor.new) (C.place cursor.new) }
    ensures doc { result ≡ doc_at (C.list cursor.new) (C.place cursor.new) }
{
    cursors_stand();
    match cursor.doc() {
        Some(doc) if doc < from => {
            skip_to(cursor, doc, from);
            cursor.doc()
        }
        doc => doc,
    }
}

// Moves a cursor from a document to the first one from `from` on: by one place where there is none
// between them.
fn skip_to<C: DocCursor>(cursor: &mut C, doc: u32, from: u32)
    requires at { doc_at (C.list cursor.old) (C.place cursor.old) ≡ Some doc }
    requires before { doc < from }
    requires passed { HasPassed from (C.list cursor.old) (C.place cursor.old) }
    ensures list { C.list cursor.new ≡ C.list cursor.old }
    ensures stand { StandsFrom from (C.list cursor.new) (C.place cursor.new) }
{
    cursors_stand();
    if from - doc == 1 {
        cursor.advance();
    } else {
        cursor.next_geq(from);
    }
}

// What a list adds to the score of a document. The cursor has passed no document from this one on,
// and moves to the first of them; its frequency is read only where it stands at the document.
pub(crate) fn probe<C: DocCursor>(cursor: &mut C, weight: u32, doc: u32) -> u64
    requires passed { HasPassed doc (C.list cursor.old) (C.place cursor.old) }
    ensures list { C.list cursor.new ≡ C.list cursor.old }
    ensures stand { StandsFrom doc (C.list cursor.new) (C.place cursor.new) }
    ensures value { result ≡ weight * freq_of_doc doc (C.list cursor.old) }
{
    cursors_tell();
    if doc_from(cursor, doc) == Some(doc) {
        u64::from(weight) * u64::from(cursor.freq())
    } else {
        0
    }
}
