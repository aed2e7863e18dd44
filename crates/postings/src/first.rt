ghost use Rattle.std.specs.Prelude.{◌≡◌, length, option_map};
ghost use Rattle.collection_model.specs.Collection.{first_at_least};
ghost use Rattle.collection_model.specs.Sequences.{postings_in};
ghost use Rattle.cursor_api.specs.NextGeq.{IsCursorList};

use two_level::SeqView;

/// The first posting of a list whose document is at least d, as document and frequency, from the
/// two sequences of the list. Of each sequence one part is read.
pub fn first_posting(docs: &SeqView<'_>, freqs: &SeqView<'_>, d: u32) -> Option<(u32, u32)>
    requires same_length { length docs.now.values ≡ length freqs.now.values }
    requires list { IsCursorList (postings_in docs.now.values freqs.now.values) }
    ensures { result ≡ option_map (λ p. (p.doc, p.freq))
        (first_at_least (postings_in docs.now.values freqs.now.values) d) }
{
    let cursor = docs.cursor_from(u64::from(d));
    match cursor.current() {
        Some(doc) => Some((doc as u32, freqs.step(cursor.place()) as u32)),
        None => None,
    }
}
