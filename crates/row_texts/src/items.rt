// Lists of numbers as bytes.
use crate::faults::Fault;
use crate::lines::first_word;
use crate::texts::push_texts;

// How many bytes a number of a list takes.
#[derive(Clone, Copy)]
enum Width {
    One,
    Four,
    Eight,
}

// Adds the bytes of what a line says: `bytes ..`, `numbers ..`, `words ..` or `text ..`.
pub(crate) fn push_bytes(bytes: &mut Vec<u8>, line: &str) -> Result<(), Fault> {
    let (kind, list) = first_word(line);
    match kind {
        "bytes" => push_items(bytes, Width::One, list),
        "numbers" => push_numbers(bytes, list),
        "words" => push_words(bytes, list),
        "text" => push_texts(bytes, list),
        _ => Err(Fault::Unread),
    }
}

// Adds numbers of four bytes.
pub(crate) fn push_numbers(bytes: &mut Vec<u8>, list: &str) -> Result<(), Fault> {
    push_items(bytes, Width::Four, list)
}

// Adds words of eight bytes.
pub(crate) fn push_words(bytes: &mut Vec<u8>, list: &str) -> Result<(), Fault> {
    push_items(bytes, Width::Eight, list)
}

fn push_items(bytes: &mut Vec<u8>, width: Width, list: &str) -> Result<(), Fault> {
    for item in list.split_whitespace() {
        match item.split_once("..") {
            Some((first, rest)) => push_range(bytes, width, Numbers::read(first, rest)?)?,
            None => push_repeated(bytes, width, item)?,
        }
    }
    Ok(())
}

fn push_range(bytes: &mut Vec<u8>, width: Width, numbers: Numbers) -> Result<(), Fault> {
    let mut number = numbers.first;
    for _ in 0..numbers.count {
        push_number(bytes, width, number)?;
        number = number.saturating_add(numbers.step);
    }
    Ok(())
}

// Numbers of which each is a step behind the one before.
#[derive(Clone, Copy)]
pub(crate) struct Numbers {
    pub(crate) first: u64,
    pub(crate) step: u64,
    pub(crate) count: u64,
}

impl Numbers {
    // Those from a first one up to below another, maybe with a step: `FIRST`, and `BELOW` or
    // `BELOW+STEP`.
    pub(crate) fn read(first: &str, rest: &str) -> Result<Numbers, Fault> {
        let (below, step) = rest.split_once('+').unwrap_or((rest, "1"));
        let (below, step) = (number_of(below)?, number_of(step)?);
        Numbers::new(number_of(first)?, below, step).ok_or(Fault::Unread)
    }

    fn new(first: u64, below: u64, step: u64) -> Option<Numbers> {
        let span = below.checked_sub(first)?;
        if step == 0 {
            return None;
        }
        let count = span.div_ceil(step);
        Some(Numbers { first, step, count })
    }
}

// Adds a number, maybe several times.
fn push_repeated(bytes: &mut Vec<u8>, width: Width, item: &str) -> Result<(), Fault> {
    let (number, count) = item.split_once('^').unwrap_or((item, "1"));
    let number = value_of(number)?;
    for _ in 0..number_of(count)? {
        push_number(bytes, width, number)?;
    }
    Ok(())
}

// Adds the bytes of a number, the lowest first.
fn push_number(bytes: &mut Vec<u8>, width: Width, number: u64) -> Result<(), Fault> {
    match width {
        Width::One => bytes.push(u8::try_from(number).ok().ok_or(Fault::Unread)?)?,
        Width::Four => {
            let number = u32::try_from(number).ok().ok_or(Fault::Unread)?;
            bytes.extend_from_slice(&number.to_le_bytes())?;
        }
        Width::Eight => bytes.extend_from_slice(&number.to_le_bytes())?,
    }
    Ok(())
}

// The number of an item: digits, two halves of a word, or the eight letters of one.
pub(crate) fn value_of(item: &str) -> Result<u64, Fault> {
    if let Some(letters) = item.strip_prefix('\'') {
        let letters = letters.strip_suffix('\'').ok_or(Fault::Unread)?;
        return word_of(letters.as_bytes());
    }
    match item.split_once(':') {
        Some((high, low)) => Ok((u64::from(half_of(high)?) << 32) | u64::from(half_of(low)?)),
        None => number_of(item),
    }
}

// The number of half a word.
fn half_of(text: &str) -> Result<u32, Fault> {
    u32::try_from(number_of(text)?).ok().ok_or(Fault::Unread)
}

// The word of eight bytes.
pub(crate) fn word_of(bytes: &[u8]) -> Result<u64, Fault> {
    let word = bytes.first_chunk::<8>().ok_or(Fault::Unread)?;
    if bytes.len() == 8 {
        Ok(u64::from_le_bytes(*word))
    } else {
        Err(Fault::Unread)
    }
}

// The number of decimal digits, or of hexadecimal ones behind `0x`; `_` may stand between them.
pub(crate) fn number_of(text: &str) -> Result<u64, Fault> {
    let text = text.trim();
    let number = match text.strip_prefix("0x") {
        Some(digits) => digits_of(digits, 16),
        None => digits_of(text, 10),
    };
    number.ok_or(Fault::Unread)
}

// The number of digits of a base.
fn digits_of(digits: &str, base: u64) -> Option<u64> {
    let mut number: u64 = 0;
    for letter in digits.chars() {
        if letter != '_' {
            number = number
                .checked_mul(base)?
                .checked_add(digit_of(letter, base)?)?;
        }
    }
    if digits.is_empty() {
        None
    } else {
        Some(number)
    }
}

// The number of a digit of a base.
fn digit_of(letter: char, base: u64) -> Option<u64> {
    let digit = u64::from(letter.to_digit(16)?);
    if digit < base { Some(digit) } else { None }
}

/// The number of digits, as a length.
pub fn length_of(text: &str) -> Result<usize, Fault> {
    usize::try_from(number_of(text)?).ok().ok_or(Fault::Unread)
}
