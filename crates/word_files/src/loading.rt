ghost use Rattle.std.specs.Prelude.{◌≡◌, ◌≢◌, ◌+◌, ◌/◌, ◌%◌, ◌^◌, ◌<◌, ◌≤◌, ◌⊎◌, ◌++◌, ◌↔◌, max, length, vec_len, vec_capacity, IsTrue, IfOk, IfErr, OnOk};
ghost use Rattle.std.specs.List.{All, Contains};
ghost use Rattle.collection_model.specs.Bytes.{word_bytes};
ghost use Rattle.index_file.specs.declared.bytes.WordsError.TheVariants.{Ragged, NoMemory};
ghost use Rattle.io_traits.specs.DepotState.{bytes_under};
ghost use Rattle.word_files.specs.LoadWords.{BeginWithOne, BeginsWithWords, LoadsKept};
ghost use Rattle.word_files.specs.LoadWords.{piece_words, words_loaded};
ghost use Rattle.word_files.specs.ReadWords.{PassesWords, ReadsKept, most_words};

use index_file::{WordsError, read_words_into};
use io_traits::{Depot, IoFail, Slot, fill_piece};
use std::alloc::{AllocError, Global};

// The most bytes of a file of words.
const LONGEST_FILE: u64 = 1 << 40;

// How many bytes are read at once: whole words.
const PIECE_BYTES: usize = 8_192;

// How many zeros are appended at once: so few take wide stores, where a long fill may go byte by
// byte.
const FILLED_BYTES: usize = 1_024;

/// Why no words of a file were loaded.
#[derive(Clone, Copy, Debug, PartialEq, Eq)]
pub enum LoadWordsError {
    /// The file is no whole words: the number of its bytes is no multiple of eight.
    Ragged,
    /// The start or a read of its slot failed.
    Read,
    /// There are more than 2^40 bytes.
    TooLarge,
    /// Memory was refused, here or by the depot.
    NoMemory,
}

impl From<IoFail> for LoadWordsError {
    ghost use Rattle.word_files.specs.ReadWords.{call_error};

    ghost from_gives = { λ fail e. e ≡ call_error fail };

    fn from(fail: IoFail) -> LoadWordsError {
        match fail {
            IoFail::Failed => LoadWordsError::Read,
            IoFail::NoMemory => LoadWordsError::NoMemory,
        }
    }
}

impl From<WordsError> for LoadWordsError {
    ghost use Rattle.word_files.specs.ReadWords.{words_error};

    ghost from_gives = { λ refusal e. e ≡ words_error refusal };

    fn from(refusal: WordsError) -> LoadWordsError {
        match refusal {
            WordsError::Ragged => LoadWordsError::Ragged,
            WordsError::NoMemory => LoadWordsError::NoMemory,
        }
    }
}

/// The words of the file under the name, at most 2^37, which is read from the slot. What they
/// stand for is not checked here, but of a file that begins with none of the words `openings` only
/// those of its first piece are kept: the rest is read to its end, so that it is refused as any
/// other where it is ragged or too large. Room is taken for the words that are kept and a quarter
/// more, for a piece of the file, and, where the rest is not kept, for the words of a piece.
pub fn load_words<D: Depot>(
    alloc: Global,
    slot: Slot,
    openings: &[u64],
    name: &str,
    depot: &mut D,
) -> Result<Vec<u64>, LoadWordsError>
    ensures loads { LoadsKept openings.now slot name.now (D.state depot.old) (D.state depot.new)
        (words_loaded result) }
    ensures few { IfOk result (λ words. (length words.items ≤ piece_words)
        ⊎ BeginWithOne openings.now words.items) }
    ensures first { IsTrue (D.state depot.old).tells → IfOk result (λ words.
        BeginsWithWords (bytes_under (D.state depot.old) name.now) words.items) }
{
    depot.start(slot, name)?;
    read_file(alloc, slot, openings, depot)
}

// Words are numbers of 64 bits.
fn words_fit(words: &[u64])
    ensures { All (λ w. w < 2 ^ 64) words.now }
{}

// Whether a file of which all words are kept begins with this one.
fn is_opening(openings: &[u64], word: u64) -> bool
    ensures { IsTrue result ↔ Contains openings.now word }
{
    openings.contains(&word)
}

// The words of all bytes that a started slot has left, at most 2^40, piece by piece; of those that
// begin with none of the words `openings`, the words of the first piece.
fn read_file<D: Depot>(
    alloc: Global,
    slot: Slot,
    openings: &[u64],
    depot: &mut D,
) -> Result<Vec<u64>, LoadWordsError>
    requires { IsTrue ((D.state depot.old).started slot) }
    ensures reads { ReadsKept openings.now slot (D.state depot.old) (D.state depot.new)
        (words_loaded result) }
    ensures few { IfOk result (λ words. (length words.items ≤ piece_words)
        ⊎ BeginWithOne openings.now words.items) }
    ensures first { IsTrue (D.state depot.old).tells → IfOk result (λ words.
        BeginsWithWords ((D.state depot.old).left slot) words.items) }
{
    let mut piece = room_for_a_piece(alloc)?;
    let mut words = Vec::new(alloc);
    loop {
        let count = fill_piece(depot, slot, piece.as_mut_slice())?;
        if 8 * words.len() as u64 + count as u64 > LONGEST_FILE {
            return Err(LoadWordsError::TooLarge);
        }
        add_words(&mut words, &piece[..count])?;
        words_fit(&words);
        if count < PIECE_BYTES {
            return Ok(words);
        }
        if !is_opening(openings, words[0]) {
            pass_rest(alloc, slot, words.len() as u64, piece.as_mut_slice(), depot)?;
            return Ok(words);
        }
    }
}

// Reads all bytes that a started slot has left behind so many words, piece by piece, and keeps none
// of them.
fn pass_rest<D: Depot>(
    alloc: Global,
    slot: Slot,
    held: u64,
    piece: &mut [u8],
    depot: &mut D,
) -> Result<(), LoadWordsError>
    requires room { length piece.old ≡ PIECE_BYTES }
    requires few { held ≤ most_words }
    requires started { IsTrue ((D.state depot.old).started slot) }
    ensures { PassesWords slot held (D.state depot.old) (D.state depot.new) result }
{
    let mut words = Vec::new(alloc);
    let mut passed = held;
    loop {
        let count = fill_piece(depot, slot, piece)?;
        if 8 * passed + count as u64 > LONGEST_FILE {
            return Err(LoadWordsError::TooLarge);
        }
        words.clear();
        add_words(&mut words, &piece[..count])?;
        words_fit(&words);
        if count < piece.len() {
            return Ok(());
        }
        passed += words.len() as u64;
    }
}

// Room for the bytes that are read at once.
fn room_for_a_piece(alloc: Global) -> Result<Vec<u8>, WordsError>
    ensures room { IfOk result (λ piece. vec_len piece ≡ PIECE_BYTES) }
    ensures refused { IfErr result (λ e. e ≡ NoMemory) }
{
    zeros(alloc).map_err(|_| WordsError::NoMemory)
}

// As many zeros as are read at once.
fn zeros(alloc: Global) -> Result<Vec<u8>, AllocError>
    ensures { IfOk result (λ zeros. length zeros.items ≡ PIECE_BYTES) }
{
    let mut zeros = Vec::with_capacity(alloc, PIECE_BYTES)?;
    while zeros.len() < PIECE_BYTES {
        let more = PIECE_BYTES.min(zeros.len() + FILLED_BYTES);
        zeros.resize(more, 0)?;
    }
    Ok(zeros)
}

// Appends the words of a piece of the file.
fn add_words(words: &mut Vec<u64>, piece: &[u8]) -> Result<(), WordsError>
    ensures added { OnOk result (word_bytes words.new.items
        ≡ word_bytes words.old.items ++ piece.now) }
    ensures ragged { IfErr result (λ e. e ≡ Ragged → length piece.now % 8 ≢ 0) }
{
    make_room(words, piece.len() / 8)?;
    read_words_into(piece, words)
}

// Makes room for so many more words where there is too little: for a quarter of those that there
// are besides.
fn make_room(words: &mut Vec<u64>, more: usize) -> Result<(), WordsError>
    ensures words { words.new.items ≡ words.old.items }
    ensures room { vec_capacity words.new ≤ max (vec_capacity words.old)
        (length words.old.items + (more + length words.old.items / 4)) }
    ensures refused { IfErr result (λ e. e ≡ NoMemory) }
{
    if words.capacity() - words.len() >= more {
        return Ok(());
    }
    words
        .reserve_exact(more.saturating_add(words.len() / 4))
        .map_err(|_| WordsError::NoMemory)
}
