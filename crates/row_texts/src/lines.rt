// The lines of a table.
use crate::faults::Fault;
use std::alloc::Global;

/// A line of a table, with those that continue it.
#[derive(Drop)]
pub struct Line {
    /// Its number in the table, counted from 1.
    pub number: usize,
    pub text: String,
}

/// The lines of a text, without comments and empty lines. One that begins with a space continues
/// the line before it.
pub fn lines_of(alloc: Global, text: &str) -> Result<Vec<Line>, Fault> {
    let mut lines = Vec::new(alloc);
    for (at, line) in text.lines().enumerate() {
        if !line.starts_with('#') && !line.trim().is_empty() {
            add_line(alloc, &mut lines, at.saturating_add(1), line)?;
        }
    }
    Ok(lines)
}

// Adds a line, or what it continues the last with.
fn add_line(alloc: Global, lines: &mut Vec<Line>, number: usize, line: &str) -> Result<(), Fault> {
    if line.starts_with(' ')
        && let Some(last) = lines.last_mut()
    {
        last.text.push(' ')?;
        last.text.push_str(line.trim_start())?;
        return Ok(());
    }
    let text = String::from_str(alloc, line)?;
    lines.push(Line { number, text })?;
    Ok(())
}

/// The first word of a text, and what is behind it.
pub fn first_word(text: &str) -> (&str, &str) {
    match text.split_once(' ') {
        Some((word, rest)) => (word, rest.trim_start()),
        None => (text, ""),
    }
}

// The words of a line, as texts of their own.
pub(crate) fn words_of(alloc: Global, line: &str) -> Result<Vec<String>, Fault> {
    let mut words = Vec::new(alloc);
    for word in line.split_whitespace() {
        words.push(String::from_str(alloc, word)?)?;
    }
    Ok(words)
}
