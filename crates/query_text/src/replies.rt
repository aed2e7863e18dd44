// The texts of replies, each with its newline.
ghost use Rattle.std.specs.Prelude.{◌≡◌, ℕ, ◌+◌, ◌*◌, ◌≤◌, ◌∷◌, ◌++◌, length, drop};
ghost use Rattle.std.specs.Prelude.{decimal, flat_map, IfOk};
ghost use Rattle.std.specs.List.{All};
ghost use Rattle.query_text.specs.Texts.{listed, scored, next_text, list_text, top_text, bad_text};

use crate::query::Bad;
use itoa::write_digits;
use no_memory::NoMemory;
use std::alloc::Global;

// The most bytes that a document takes in a reply: a space and ten digits.
const LISTED: usize = 11;

// Room for two numbers, of at most twenty digits, with a space between and a newline.
const POSTING: usize = 42;

// The most bytes of a count and a newline.
const COUNTED: usize = 21;

// How many documents are written at once.
const GROUP: usize = 32;

// The most bytes of a group: a document with its score takes a space, ten digits, a colon and
// twenty digits.
const GROUP_ROOM: usize = 32 * GROUP;

// A text that begins with a count, and has room for so many documents behind it, each in at most so
// many bytes, and a newline.
fn counted_text(alloc: Global, count: usize, each: usize) -> Result<Vec<u8>, NoMemory>
    ensures { IfOk result (λ text. text.items ≡ decimal count) }
{
    let Some(documents) = count.checked_mul(each) else {
        return Err(NoMemory);
    };
    let Some(room) = documents.checked_add(COUNTED) else {
        return Err(NoMemory);
    };
    let mut text = Vec::with_capacity(alloc, room)?;
    let mut digits = [0; COUNTED];
    let start = write_digits(count as u64, &mut digits, COUNTED);
    text.extend_from_slice(&digits[start..])?;
    Ok(text)
}

// Writes a byte that ends at a place, and gives where it stands.
fn write_before(byte: u8, text: &mut [u8], end: usize) -> usize
    requires room { 1 ≤ end }
    requires within { end ≤ length text.old }
    ensures start { result + 1 ≡ end }
    ensures written { drop result text.new ≡ byte ∷ drop end text.old }
    ensures count { length text.new ≡ length text.old }
{
    text[end - 1] = byte;
    end - 1
}

// Writes a byte and then a number's decimal digits, which end at a place, and gives where they
// begin. Most scores have one digit.
fn write_after(byte: u8, number: u64, text: &mut [u8], end: usize) -> usize
    requires room { length (decimal number) + 1 ≤ end }
    requires within { end ≤ length text.old }
    ensures start { result + length (decimal number) + 1 ≡ end }
    ensures written { drop result text.new ≡ byte ∷ decimal number ++ drop end text.old }
    ensures count { length text.new ≡ length text.old }
{
    if number < 10 {
        let first = write_before(b'0' + number as u8, text, end);
        return write_before(byte, text, first);
    }
    let first = write_digits(number, text, end);
    write_before(byte, text, first)
}

// How many digits a number has.
fn digit_count(number: u64) -> usize
    ensures most { (n : ℕ) → n ≤ number → length (decimal n) ≤ result }
    ensures few { result ≤ 20 }
{
    number.max(1).ilog10() as usize + 1
}

// The most bytes that one of some documents takes with its score, a space before it and a colon
// between.
fn widest(top: &[(u32, u64)]) -> usize
    ensures { All (λ e. length (decimal e.0) + length (decimal e.1) + 2 ≤ result) top.now }
{
    // No number is greater than one that has the bits of all.
    let mut docs: u32 = 0;
    let mut scores: u64 = 0;
    for entry in top {
        docs |= entry.0;
        scores |= entry.1;
    }
    2 + digit_count(u64::from(docs)) + digit_count(scores)
}

/// The reply to `next`: the first posting as its document and its frequency, or `end` where there
/// is none.
pub fn next_reply(alloc: Global, posting: Option<(u32, u32)>) -> Result<Vec<u8>, NoMemory>
    ensures { IfOk result (λ text. text.items ≡ next_text posting) }
{
    let Some((doc, freq)) = posting else {
        return Ok(Vec::from_slice(alloc, b"end\n")?);
    };
    let mut text = [b'\n'; POSTING];
    let end = text.len() - 1;
    let middle = write_after(b' ', u64::from(freq), &mut text, end);
    let start = write_digits(u64::from(doc), &mut text, middle);
    Ok(Vec::from_slice(alloc, &text[start..])?)
}

// Writes documents at the end of a room, and gives where they begin.
fn write_docs(docs: &[u32], room: &mut [u8]) -> usize
    requires room { 32 * length docs.now ≤ length room.old }
    ensures within { result ≤ length room.new }
    ensures written { drop result room.new ≡ flat_map listed docs.now }
    ensures count { length room.new ≡ length room.old }
{
    let mut at = room.len();
    let mut left = docs.len();
    while left > 0 {
        left -= 1;
        at = write_after(b' ', u64::from(docs[left]), room, at);
    }
    at
}

// Writes a document with its score, which end at a place, and gives where they begin.
fn write_pair(doc: u32, score: u64, room: &mut [u8], end: usize) -> usize
    requires room { 32 ≤ end }
    requires within { end ≤ length room.old }
    ensures start { result ≤ end }
    ensures few { end ≤ result + 32 }
    ensures written { drop result room.new ≡ scored (doc, score) ++ drop end room.old }
    ensures count { length room.new ≡ length room.old }
{
    let middle = write_after(b':', score, room, end);
    write_after(b' ', u64::from(doc), room, middle)
}

// Writes documents with their scores at the end of a room, and gives where they begin.
fn write_scored(top: &[(u32, u64)], room: &mut [u8]) -> usize
    requires room { 32 * length top.now ≤ length room.old }
    ensures within { result ≤ length room.new }
    ensures written { drop result room.new ≡ flat_map scored top.now }
    ensures count { length room.new ≡ length room.old }
{
    let mut at = room.len();
    let mut left = top.len();
    while left > 0 {
        left -= 1;
        let (doc, score) = top[left];
        at = write_pair(doc, score, room, at);
    }
    at
}

/// The reply to `and` and `or`: how many documents, and each.
pub fn list_reply(alloc: Global, docs: &[u32]) -> Result<Vec<u8>, NoMemory>
    ensures { IfOk result (λ text. text.items ≡ list_text docs.now) }
{
    let mut text = counted_text(alloc, docs.len(), LISTED)?;
    let mut room = [0; GROUP_ROOM];
    let mut rest = docs;
    while !rest.is_empty() {
        let (group, behind) = rest.split_at(rest.len().min(GROUP));
        let start = write_docs(group, &mut room);
        text.extend_from_slice(&room[start..])?;
        rest = behind;
    }
    text.push(b'\n')?;
    Ok(text)
}

/// The reply to `top`: how many documents, and each with its score.
pub fn top_reply(alloc: Global, top: &[(u32, u64)]) -> Result<Vec<u8>, NoMemory>
    ensures { IfOk result (λ text. text.items ≡ top_text top.now) }
{
    let mut text = counted_text(alloc, top.len(), widest(top))?;
    let mut room = [0; GROUP_ROOM];
    let mut rest = top;
    while !rest.is_empty() {
        let (group, behind) = rest.split_at(rest.len().min(GROUP));
        let start = write_scored(group, &mut room);
        text.extend_from_slice(&room[start..])?;
        rest = behind;
    }
    text.push(b'\n')?;
    Ok(text)
}

/// The reply to a line that breaks a rule.
pub fn bad_reply(bad: Bad) -> &'static [u8]
    ensures { result.now ≡ bad_text bad }
{
    match bad {
        Bad::Length => b"bad length\n",
        Bad::Verb => b"bad verb\n",
        Bad::Number => b"bad number\n",
        Bad::Weight => b"bad weight\n",
        Bad::Terms => b"bad terms\n",
        Bad::Term => b"bad term\n",
    }
}
