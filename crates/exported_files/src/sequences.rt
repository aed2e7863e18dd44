ghost use Rattle.std.specs.Prelude.{◌≡◌, ◌≤◌, ◌<◌, [], length, IsTrue};
ghost use Rattle.collection_model.specs.Bytes.{number_sequence};
ghost use Rattle.collection_model.specs.Collection.{list_of, docs_of, freqs_of};
ghost use Rattle.collection_model.specs.Spelling.{spelled};
ghost use Rattle.word_files.specs.Given.{Gives};

use cursor_api::DocCursor;
use index_file::Index;
use io_traits::{Depot, IoFail};
use word_files::PieceWriter;

// Gives the file of documents of the collection of an index: the number of documents, and then the
// documents of each list.
pub(crate) fn give_docs<D: Depot>(
    index: &Index<'_>,
    writer: &mut PieceWriter,
    depot: &mut D,
) -> Result<(), IoFail>
    requires { IsTrue (D.state depot.old).created }
    ensures { Gives (spelled index.now.collection).docs writer.old writer.new
        (D.state depot.old) (D.state depot.new) result }
{
    writer.give(1, depot)?;
    writer.give(index.documents(), depot)?;
    let walked = index.walked_terms();
    for term in 0..index.terms() {
        give_docs_at(index, term, walked, writer, depot)?;
    }
    Ok(())
}

// Gives its file of frequencies: those of each list.
pub(crate) fn give_freqs<D: Depot>(
    index: &Index<'_>,
    writer: &mut PieceWriter,
    depot: &mut D,
) -> Result<(), IoFail>
    requires { IsTrue (D.state depot.old).created }
    ensures { Gives (spelled index.now.collection).freqs writer.old writer.new
        (D.state depot.old) (D.state depot.new) result }
{
    let walked = index.walked_terms();
    for term in 0..index.terms() {
        give_freqs_at(index, term, walked, writer, depot)?;
    }
    Ok(())
}

// Gives its file of sizes.
pub(crate) fn give_sizes<D: Depot>(
    index: &Index<'_>,
    writer: &mut PieceWriter,
    depot: &mut D,
) -> Result<(), IoFail>
    requires { IsTrue (D.state depot.old).created }
    ensures { Gives (spelled index.now.collection).sizes writer.old writer.new
        (D.state depot.old) (D.state depot.new) result }
{
    index.stands_for_a_collection();
    writer.give(index.documents(), depot)?;
    for document in 0..index.documents() {
        writer.give(index.size_of(document), depot)?;
    }
    Ok(())
}

// Gives the documents of list t, which is read if it is walked; else it has none.
fn give_docs_at<D: Depot>(
    index: &Index<'_>,
    t: u32,
    walked: u32,
    writer: &mut PieceWriter,
    depot: &mut D,
) -> Result<(), IoFail>
    requires within { t < length index.now.collection.lists }
    requires rest { walked ≤ t → list_of index.now.collection t ≡ [] }
    requires created { IsTrue (D.state depot.old).created }
    ensures { Gives (number_sequence (docs_of (list_of index.now.collection t))) writer.old
        writer.new (D.state depot.old) (D.state depot.new) result }
{
    if t >= walked {
        return writer.give(0, depot);
    }
    let mut cursor = index.cursor(t);
    give_docs_of(&mut cursor, writer, depot)
}

// Gives its frequencies.
fn give_freqs_at<D: Depot>(
    index: &Index<'_>,
    t: u32,
    walked: u32,
    writer: &mut PieceWriter,
    depot: &mut D,
) -> Result<(), IoFail>
    requires within { t < length index.now.collection.lists }
    requires rest { walked ≤ t → list_of index.now.collection t ≡ [] }
    requires created { IsTrue (D.state depot.old).created }
    ensures { Gives (number_sequence (freqs_of (list_of index.now.collection t))) writer.old
        writer.new (D.state depot.old) (D.state depot.new) result }
{
    if t >= walked {
        return writer.give(0, depot);
    }
    let mut cursor = index.cursor(t);
    give_freqs_of(&mut cursor, writer, depot)
}

// Gives the documents of a cursor that stands at the start of its list: how many they are, and then
// each.
fn give_docs_of<C: DocCursor, D: Depot>(
    cursor: &mut C,
    writer: &mut PieceWriter,
    depot: &mut D,
) -> Result<(), IoFail>
    requires start { C.place cursor.old ≡ 0 }
    requires created { IsTrue (D.state depot.old).created }
    ensures { Gives (number_sequence (docs_of (C.list cursor.old))) writer.old writer.new
        (D.state depot.old) (D.state depot.new) result }
{
    writer.give(cursor.len(), depot)?;
    while let Some(doc) = cursor.doc() {
        writer.give(doc, depot)?;
        cursor.advance();
    }
    Ok(())
}

// Gives its frequencies.
fn give_freqs_of<C: DocCursor, D: Depot>(
    cursor: &mut C,
    writer: &mut PieceWriter,
    depot: &mut D,
) -> Result<(), IoFail>
    requires start { C.place cursor.old ≡ 0 }
    requires created { IsTrue (D.state depot.old).created }
    ensures { Gives (number_sequence (freqs_of (C.list cursor.old))) writer.old writer.new
        (D.state depot.old) (D.state depot.new) result }
{
    writer.give(cursor.len(), depot)?;
    while cursor.doc().is_some() {
        writer.give(cursor.freq(), depot)?;
        cursor.advance();
    }
    Ok(())
}
