// Runs that are alike but for a call that fails, or for a file that is changed.
use crate::calls::{Call, first_call};
use crate::faults::Fault;
use crate::files::Files;
use crate::items::{length_of, number_of};
use crate::lines::first_word;
use std::alloc::Global;

/// At most so many calls fail in turn.
pub(crate) const MOST_TURNS: u64 = 400;

/// A kind of call of which each fails in turn.
#[derive(Clone, Copy)]
pub struct Each {
    pub call: Call,
    /// The number of the first call that fails.
    pub from: u64,
    /// The number of the last; none where each fails until a run makes no such call.
    pub to: Option<u64>,
    /// At least so many calls have to fail.
    pub least: u64,
}

impl Each {
    // What a line says: `CALL [from A] [to B] [least N]`.
    pub(crate) fn read(line: &str) -> Result<Each, Fault> {
        let (call, mut rest) = first_call(line)?;
        let mut each = Each {
            call,
            from: 1,
            to: None,
            least: 1,
        };
        for _ in 0..3 {
            if !rest.is_empty() {
                rest = each.take(rest)?;
            }
        }
        if rest.is_empty() {
            Ok(each)
        } else {
            Err(Fault::Unread)
        }
    }

    // Takes a word and its number, and gives what is behind them.
    fn take<'a>(&mut self, line: &'a str) -> Result<&'a str, Fault> {
        let (word, rest) = first_word(line);
        let (number, rest) = first_word(rest);
        let number = number_of(number)?;
        match word {
            "from" => self.from = number,
            "to" => self.to = Some(number),
            "least" => self.least = number,
            _ => return Err(Fault::Unread),
        }
        Ok(rest)
    }

    /// The number of the last call that may fail.
    pub fn last(&self) -> u64 {
        match self.to {
            Some(to) => to,
            None => self.from.saturating_add(MOST_TURNS),
        }
    }
}

/// A change of a file.
#[derive(Clone, Copy)]
pub enum Damage {
    /// It is cut to so many bytes.
    Cut(usize),
    /// A bit of a word is flipped.
    Flip(usize, u32),
}

/// A file that is changed in one way after another.
#[derive(Drop)]
pub struct Damages {
    pub name: String,
    pub list: Vec<Damage>,
}

impl Damage {
    /// Changes the file so.
    pub fn make(self, files: &mut Files, name: &str) -> Result<(), Fault> {
        match self {
            Damage::Cut(length) => files.cut(name, length),
            Damage::Flip(word, bit) => files.flip(name, word, bit),
        }
    }

    /// What tells of it.
    pub fn told(self, alloc: Global, name: &str) -> Result<String, Fault> {
        let told = match self {
            Damage::Cut(length) => format!(in alloc; "{name} cut to {length}"),
            Damage::Flip(word, bit) => format!(in alloc; "{name} word {word} bit {bit}"),
        };
        Ok(told?)
    }
}

impl Damages {
    // What a line says: `NAME from A to B`, both included.
    pub(crate) fn read_cuts(alloc: Global, line: &str) -> Result<Damages, Fault> {
        let (name, rest) = first_word(line);
        let list = cuts_of(alloc, rest)?;
        let name = String::from_str(alloc, name)?;
        Ok(Damages { name, list })
    }

    // What a line says: `NAME PLACES..`.
    pub(crate) fn read_flips(alloc: Global, line: &str) -> Result<Damages, Fault> {
        let (name, rest) = first_word(line);
        let list = flips_of(alloc, rest)?;
        let name = String::from_str(alloc, name)?;
        Ok(Damages { name, list })
    }
}

// The cuts `from A to B`.
fn cuts_of(alloc: Global, line: &str) -> Result<Vec<Damage>, Fault> {
    let lengths = line.strip_prefix("from ").ok_or(Fault::Unread)?;
    let (from, to) = lengths.split_once(" to ").ok_or(Fault::Unread)?;
    let (from, to) = (length_of(from)?, length_of(to)?);
    let mut list = Vec::new(alloc);
    for length in from..=to {
        list.push(Damage::Cut(length))?;
    }
    Ok(list)
}

// The flips at some places.
fn flips_of(alloc: Global, line: &str) -> Result<Vec<Damage>, Fault> {
    let mut list = Vec::new(alloc);
    for places in line.split_whitespace() {
        push_flips(&mut list, places)?;
    }
    Ok(list)
}

// Adds the flips of bits of a word, `WORD:BITS`, or of all bits of words, `WORDS`.
fn push_flips(list: &mut Vec<Damage>, places: &str) -> Result<(), Fault> {
    let (words, bits) = places.split_once(':').unwrap_or((places, "0-63"));
    let (first, last) = span_of(words)?;
    let bits = span_of(bits)?;
    for word in first..=last {
        push_bits(list, word, bits)?;
    }
    Ok(())
}

// Adds the flips of the bits of a word from a first to a last.
fn push_bits(list: &mut Vec<Damage>, word: usize, bits: (usize, usize)) -> Result<(), Fault> {
    if bits.1 > 63 {
        return Err(Fault::Unread);
    }
    for bit in bits.0..=bits.1 {
        let bit = u32::try_from(bit).ok().ok_or(Fault::Unread)?;
        list.push(Damage::Flip(word, bit))?;
    }
    Ok(())
}

// The first and the last number of `A-B` or `A`.
fn span_of(text: &str) -> Result<(usize, usize), Fault> {
    let (first, last) = text.split_once('-').unwrap_or((text, text));
    Ok((length_of(first)?, length_of(last)?))
}
