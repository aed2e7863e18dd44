// What came, and what was wanted, as it is told.
use row_texts::Fault;
use std::alloc::{AllocError, Global};

/// At most so many bytes are told.
const MOST_SHOWN: usize = 200;

// Why a run is not as wanted.
#[derive(Drop)]
pub(crate) enum Difference {
    /// What came and what was wanted.
    Told(String),
    /// Memory was refused before that was known.
    NoMemory,
}

impl From<AllocError> for Difference {
    ghost from_gives = { λ _ _. Unit {0} };

    fn from(_refused: AllocError) -> Difference {
        Difference::NoMemory
    }
}

impl From<Fault> for Difference {
    ghost from_gives = { λ _ _. Unit {0} };

    fn from(_fault: Fault) -> Difference {
        Difference::NoMemory
    }
}

// Bytes in quotes, with escapes.
fn shown(alloc: Global, bytes: &[u8]) -> Result<String, Fault> {
    let mut text = String::from_str(alloc, "\"")?;
    push_bytes(alloc, &mut text, bytes)?;
    text.push_str(if bytes.len() > MOST_SHOWN {
        "\".."
    } else {
        "\""
    })?;
    Ok(text)
}

fn push_bytes(alloc: Global, text: &mut String, bytes: &[u8]) -> Result<(), Fault> {
    for byte in bytes.iter().take(MOST_SHOWN) {
        push_byte(alloc, text, *byte)?;
    }
    Ok(())
}

fn push_byte(alloc: Global, text: &mut String, byte: u8) -> Result<(), Fault> {
    let pushed = match byte {
        b'\n' => text.push_str("\\n"),
        b'"' => text.push_str("\\\""),
        b'\\' => text.push_str("\\\\"),
        b' '..=b'~' => text.push(char::from(byte)),
        _ => return push_number(alloc, text, byte),
    };
    pushed?;
    Ok(())
}

// Adds the number of a byte.
fn push_number(alloc: Global, text: &mut String, byte: u8) -> Result<(), Fault> {
    let number = format!(in alloc; "\\x{byte:02x}")?;
    text.push_str(&number)?;
    Ok(())
}

// The bytes of a file, from where they differ from others, or that there is none.
fn shown_file(alloc: Global, bytes: Option<&[u8]>, other: &[u8]) -> Result<String, Fault> {
    let Some(bytes) = bytes else {
        return Ok(String::from_str(alloc, "no file")?);
    };
    let length = bytes.len();
    let same = same_front(bytes, other);
    let rest = shown(alloc, bytes.get(same..).unwrap_or_default())?;
    Ok(format!(in alloc; "{length} bytes, from {same} on {rest}")?)
}

// How many bytes are the same.
fn same_front(bytes: &[u8], other: &[u8]) -> usize {
    let mut same: usize = 0;
    for (byte, other) in bytes.iter().zip(other) {
        if byte != other {
            return same;
        }
        same = same.saturating_add(1);
    }
    same
}

// Tells a difference: of what, what came and what was wanted, in which form.
fn differ(alloc: Global, what: &str, came: &str, wanted: (&str, &str)) -> Result<(), Difference> {
    let (form, wanted) = wanted;
    Err(Difference::Told(format!(in alloc; "{what}: came {came} wanted {form}{wanted}")?))
}

// Compares two numbers.
pub(crate) fn same_number(
    alloc: Global,
    what: &str,
    came: u64,
    wanted: u64,
) -> Result<(), Difference> {
    if came == wanted {
        return Ok(());
    }
    Err(Difference::Told(format!(in alloc; "{what}: came {came} wanted {wanted}")?))
}

// That a text differs from one that has to stand in such a way.
pub(crate) fn other_text(
    alloc: Global,
    what: &str,
    came: &[u8],
    wanted: (&str, &[u8]),
) -> Result<(), Difference> {
    let came = shown(alloc, came)?;
    let (form, wanted) = (wanted.0, shown(alloc, wanted.1)?);
    differ(alloc, what, &came, (form, &wanted))
}

// That a file differs from these bytes, or from that there is none.
pub(crate) fn other_file(
    alloc: Global,
    name: &str,
    came: Option<&[u8]>,
    wanted: Option<&[u8]>,
) -> Result<(), Difference> {
    let what = format!(in alloc; "file {name}")?;
    let came_told = shown_file(alloc, came, wanted.unwrap_or_default())?;
    let wanted_told = shown_file(alloc, wanted, came.unwrap_or_default())?;
    differ(alloc, &what, &came_told, ("", &wanted_told))
}

// Compares names, in their order.
pub(crate) fn same_names(
    alloc: Global,
    what: &str,
    came: &[String],
    wanted: &[String],
) -> Result<(), Difference> {
    if are_same(came, wanted) {
        return Ok(());
    }
    let (came, wanted) = (joined(alloc, came)?, joined(alloc, wanted)?);
    differ(alloc, what, &came, ("", &wanted))
}

// Whether these are the same names.
fn are_same(names: &[String], others: &[String]) -> bool {
    for (name, other) in names.iter().zip(others) {
        if name.as_str() != other.as_str() {
            return false;
        }
    }
    names.len() == others.len()
}

// Names as one text.
fn joined(alloc: Global, names: &[String]) -> Result<String, Fault> {
    let mut text = String::new(alloc);
    let mut before = "";
    for name in names {
        text.push_str(before)?;
        text.push_str(name)?;
        before = " ";
    }
    Ok(text)
}
