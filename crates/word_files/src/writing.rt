ghost use Rattle.std.specs.Prelude.{◌≡◌, length, IsTrue, IfErr, IfOk};
ghost use Rattle.collection_model.specs.Bytes.{word_bytes};
ghost use Rattle.io_traits.specs.Helpers.{WritesAllToFile};
ghost use Rattle.word_files.specs.WriteFile.{WritesWords};

use index_file::spell_into;
use io_traits::{Depot, IoFail, depot_write_all};
use std::alloc::Global;

// How many words are written at once.
const PIECE_WORDS: usize = 1024;

// How many bytes they have.
const PIECE_BYTES: usize = 8 * PIECE_WORDS;

/// Writes the words as the file under the name, eight bytes a word, the lowest first. Room for one
/// piece is taken before the file is created; behind that only the depot takes memory. A file that
/// was begun and is refused keeps what was written, and stays the one that is being written.
pub fn write_words<D: Depot>(
    alloc: Global,
    words: &[u64],
    name: &str,
    depot: &mut D,
) -> Result<(), IoFail>
    ensures { WritesWords words.now name.now (D.state depot.old) (D.state depot.new) result }
{
    let mut piece = room_for_a_piece(alloc)?;
    depot.create(name)?;
    write_pieces(words, &mut piece, depot)?;
    depot.finish()
}

// Room for the bytes of the words that are written at once.
fn room_for_a_piece(alloc: Global) -> Result<Vec<u8>, IoFail>
    ensures room { IfOk result (λ piece. length piece.items ≡ PIECE_BYTES) }
    ensures refused { IfErr result (λ fail. fail ≡ IoFail.NoMemory) }
{
    vec![in alloc; 0; PIECE_BYTES].map_err(|_| IoFail::NoMemory)
}

// Writes the words to the file that is being written, piece by piece.
fn write_pieces<D: Depot>(words: &[u64], piece: &mut [u8], depot: &mut D) -> Result<(), IoFail>
    requires room { length piece.old ≡ PIECE_BYTES }
    requires created { IsTrue (D.state depot.old).created }
    ensures { WritesAllToFile (D.state depot.old) (D.state depot.new) (word_bytes words.now)
        result }
{
    for part in words.chunks(PIECE_WORDS) {
        let spelled = &mut piece[..8 * part.len()];
        spell_into(part, spelled);
        depot_write_all(depot, spelled)?;
    }
    Ok(())
}
