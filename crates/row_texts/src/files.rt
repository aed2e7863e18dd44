// Files by name, and changes of them.
use crate::faults::Fault;
use crate::items::{length_of, push_bytes, push_numbers, push_words, value_of};
use crate::lines::first_word;
use crate::lists::{named, place_of, value_mut, value_under};
use std::alloc::Global;

/// Files by name, as a depot takes them.
pub type FileList = Vec<(String, Vec<u8>)>;

// A change of files.
#[derive(Clone, Copy)]
enum Change {
    File,
    Collection,
    Put,
    Up,
    Down,
    Cut,
    Drop,
    Insert,
    Replace,
}

// The first words of lines that change files.
const CHANGES: [(&str, Change); 9] = [
    ("file", Change::File),
    ("collection", Change::Collection),
    ("put", Change::Put),
    ("up", Change::Up),
    ("down", Change::Down),
    ("cut", Change::Cut),
    ("drop", Change::Drop),
    ("insert", Change::Insert),
    ("replace", Change::Replace),
];

/// Whether a line of this first word changes files.
pub fn is_change(word: &str) -> bool {
    named(&CHANGES, word).is_some()
}

/// Files by name.
#[derive(Drop)]
pub struct Files {
    list: FileList,
}

/// A place among the words of a file.
#[derive(Clone, Copy)]
pub enum Place {
    /// So many words from the first.
    FromFirst(usize),
    /// So many words from the end.
    FromEnd(usize),
}

impl Place {
    // The place that a number says; one with a minus counts from the end.
    pub(crate) fn read(text: &str) -> Result<Place, Fault> {
        match text.strip_prefix('-') {
            Some(digits) => Ok(Place::FromEnd(length_of(digits)?)),
            None => Ok(Place::FromFirst(length_of(text)?)),
        }
    }

    /// Where in so many bytes its word begins.
    pub fn start(self, bytes: usize) -> Option<usize> {
        match self {
            Place::FromFirst(words) => {
                let at = words.checked_mul(8)?;
                (at <= bytes).then_some(at)
            }
            Place::FromEnd(words) => bytes.checked_sub(words.checked_mul(8)?),
        }
    }
}

impl Files {
    pub fn new(alloc: Global) -> Files {
        Files {
            list: Vec::new(alloc),
        }
    }

    /// Their names and bytes.
    pub fn entries(&self) -> &[(String, Vec<u8>)] {
        &self.list
    }

    /// The bytes of a file.
    pub fn bytes(&self, name: &str) -> Option<&[u8]> {
        Some(value_under(&self.list, name)?)
    }

    /// All of them once more.
    pub fn copy(&self, alloc: Global) -> Result<Files, Fault> {
        let mut list = Vec::new(alloc);
        for (name, bytes) in &self.list {
            let name = String::from_str(alloc, name)?;
            list.push((name, Vec::from_slice(alloc, bytes)?))?;
        }
        Ok(Files { list })
    }

    /// The list of them.
    pub fn into_list(self) -> FileList {
        self.list
    }

    /// Adds a file of these bytes.
    pub fn add(&mut self, alloc: Global, name: &str, bytes: &[u8]) -> Result<(), Fault> {
        let name = String::from_str(alloc, name)?;
        self.list.push((name, Vec::from_slice(alloc, bytes)?))?;
        Ok(())
    }

    // The bytes of a file, to be changed.
    fn bytes_mut(&mut self, name: &str) -> Result<&mut Vec<u8>, Fault> {
        value_mut(&mut self.list, name).ok_or(Fault::Unread)
    }

    /// Makes what a line of this first word says.
    pub fn change(&mut self, alloc: Global, word: &str, line: &str) -> Result<(), Fault> {
        let (name, rest) = first_word(line);
        match named(&CHANGES, word).ok_or(Fault::Unread)? {
            Change::File => self.extend(alloc, name, rest),
            Change::Collection => self.add_collection(alloc, line),
            Change::Put => self.put(name, rest),
            Change::Up => self.raise(name, rest),
            Change::Down => self.lower(name, rest),
            Change::Cut => self.shorten(name, rest),
            Change::Drop => self.remove(name),
            Change::Insert => self.insert(name, rest),
            Change::Replace => self.replace(name, rest),
        }
    }

    // Adds the bytes that a line says to a file.
    fn extend(&mut self, alloc: Global, name: &str, line: &str) -> Result<(), Fault> {
        push_bytes(self.opened(alloc, name)?, line)
    }

    // The bytes of a file, which is made where it is not there.
    fn opened(&mut self, alloc: Global, name: &str) -> Result<&mut Vec<u8>, Fault> {
        if place_of(&self.list, name).is_none() {
            self.add(alloc, name, &[])?;
        }
        self.bytes_mut(name)
    }

    // Adds the three files of a collection.
    fn add_collection(&mut self, alloc: Global, line: &str) -> Result<(), Fault> {
        for (name, bytes) in collection_of(alloc, line)? {
            self.append(alloc, &name, &bytes)?;
        }
        Ok(())
    }

    // Adds bytes to a file.
    fn append(&mut self, alloc: Global, name: &str, bytes: &[u8]) -> Result<(), Fault> {
        self.opened(alloc, name)?.extend_from_slice(bytes)?;
        Ok(())
    }

    // The word at a place of a file, to be changed.
    fn word_mut(&mut self, name: &str, place: &str) -> Result<&mut [u8; 8], Fault> {
        let place = Place::read(place)?;
        word_mut(self.bytes_mut(name)?, place).ok_or(Fault::Unread)
    }

    // Puts a word: `PLACE WORD`.
    fn put(&mut self, name: &str, line: &str) -> Result<(), Fault> {
        let (place, word) = first_word(line);
        let word = value_of(word)?;
        *self.word_mut(name, place)? = word.to_le_bytes();
        Ok(())
    }

    // Makes a word so much more: `PLACE NUMBER`.
    fn raise(&mut self, name: &str, line: &str) -> Result<(), Fault> {
        let (place, number) = first_word(line);
        let number = value_of(number)?;
        add_to_word(self.word_mut(name, place)?, number);
        Ok(())
    }

    // Makes a word so much less: `PLACE NUMBER`.
    fn lower(&mut self, name: &str, line: &str) -> Result<(), Fault> {
        let (place, number) = first_word(line);
        let number = value_of(number)?;
        add_to_word(self.word_mut(name, place)?, number.wrapping_neg());
        Ok(())
    }

    // Cuts a file to the number of bytes that a line says.
    fn shorten(&mut self, name: &str, line: &str) -> Result<(), Fault> {
        self.cut(name, length_of(line)?)
    }

    // Cuts a file to so many bytes.
    pub(crate) fn cut(&mut self, name: &str, length: usize) -> Result<(), Fault> {
        let bytes = self.bytes_mut(name)?;
        if bytes.len() < length {
            return Err(Fault::Unread);
        }
        bytes.truncate(length);
        Ok(())
    }

    // Flips a bit of a word.
    pub(crate) fn flip(&mut self, name: &str, word: usize, bit: u32) -> Result<(), Fault> {
        let mask = 1_u64.checked_shl(bit).ok_or(Fault::Unread)?;
        let word = word_mut(self.bytes_mut(name)?, Place::FromFirst(word)).ok_or(Fault::Unread)?;
        *word = (u64::from_le_bytes(*word) ^ mask).to_le_bytes();
        Ok(())
    }

    // Takes a file away.
    fn remove(&mut self, name: &str) -> Result<(), Fault> {
        let at = place_of(&self.list, name).ok_or(Fault::Unread)?;
        if at < self.list.len() {
            self.list.remove(at);
        }
        Ok(())
    }

    // Puts words before that at a place: `PLACE WORDS`.
    fn insert(&mut self, name: &str, line: &str) -> Result<(), Fault> {
        let (at, words) = first_word(line);
        replace_words(self.bytes_mut(name)?, (at, at), words)
    }

    // Puts words in place of those from one place to below another: `FROM TO WORDS`.
    fn replace(&mut self, name: &str, line: &str) -> Result<(), Fault> {
        let (from, rest) = first_word(line);
        let (to, words) = first_word(rest);
        replace_words(self.bytes_mut(name)?, (from, to), words)
    }
}

// The three files of a collection: `BASE DOCS ; FREQS ; SIZES`.
pub(crate) fn collection_of(alloc: Global, line: &str) -> Result<FileList, Fault> {
    let (base, numbers) = first_word(line);
    let (docs, numbers) = numbers.split_once(';').ok_or(Fault::Unread)?;
    let (freqs, sizes) = numbers.split_once(';').ok_or(Fault::Unread)?;
    let mut files = Vec::new(alloc);
    add_numbers(alloc, &mut files, (base, "docs"), docs)?;
    add_numbers(alloc, &mut files, (base, "freqs"), freqs)?;
    add_numbers(alloc, &mut files, (base, "sizes"), sizes)?;
    Ok(files)
}

// Adds a file of a collection, of such a base and ending, with these numbers.
fn add_numbers(
    alloc: Global,
    files: &mut FileList,
    name: (&str, &str),
    numbers: &str,
) -> Result<(), Fault> {
    let mut bytes = Vec::new(alloc);
    push_numbers(&mut bytes, numbers)?;
    let (base, ending) = name;
    files.push((format!(in alloc; "{base}.{ending}")?, bytes))?;
    Ok(())
}

// Where in so many bytes the word of a place begins.
fn start_of(place: &str, bytes: usize) -> Result<usize, Fault> {
    Place::read(place)?.start(bytes).ok_or(Fault::Unread)
}

// Puts words in place of those from one place to below another.
fn replace_words(bytes: &mut Vec<u8>, at: (&str, &str), words: &str) -> Result<(), Fault> {
    let from = start_of(at.0, bytes.len())?;
    let to = start_of(at.1, bytes.len())?;
    replace_bytes(bytes, from, to, words)
}

// Puts words in place of the bytes from one on up to below another.
fn replace_bytes(bytes: &mut Vec<u8>, from: usize, to: usize, words: &str) -> Result<(), Fault> {
    let behind = bytes.get(to..).ok_or(Fault::Unread)?;
    let behind = Vec::from_slice(*bytes.allocator(), behind)?;
    bytes.truncate(from);
    push_words(bytes, words)?;
    bytes.extend_from_slice(&behind)?;
    Ok(())
}

// The word at a place, to be changed.
fn word_mut(bytes: &mut [u8], place: Place) -> Option<&mut [u8; 8]> {
    let start = place.start(bytes.len())?;
    bytes.get_mut(start..)?.first_chunk_mut::<8>()
}

// Makes a word so much more; what would pass the greatest begins again at 0.
fn add_to_word(word: &mut [u8; 8], number: u64) {
    *word = u64::from_le_bytes(*word).wrapping_add(number).to_le_bytes();
}
