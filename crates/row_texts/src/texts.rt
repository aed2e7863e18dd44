// Texts as bytes.
use crate::faults::Fault;
use crate::items::Numbers;
use std::alloc::Global;

// Where in a line of texts the next letter stands.
#[derive(Clone, Copy)]
enum Place {
    /// Outside of quotes.
    Between,
    /// Inside of quotes.
    Inside,
    /// Behind a backslash.
    Escape(Digits),
    /// Behind the closing quotes.
    Behind,
    /// In the number of times that the text stands there.
    Count(usize),
    /// In braces.
    Braces,
}

// What stands behind a backslash.
#[derive(Clone, Copy)]
enum Digits {
    /// Nothing yet.
    Unknown,
    /// An `x`.
    None,
    /// An `x` and a digit.
    High(u32),
}

// A line of texts that is being read.
#[derive(Drop)]
struct Reading {
    bytes: Vec<u8>,
    /// Where in them the last text begins.
    last: usize,
    /// What stands in the last braces.
    ranges: String,
    place: Place,
}

// Adds what a line says: `|` and a text, which a newline ends; or texts in quotes, one behind
// another.
pub(crate) fn push_texts(bytes: &mut Vec<u8>, line: &str) -> Result<(), Fault> {
    match line.strip_prefix('|') {
        Some(text) => push_line(bytes, text),
        None => push_quoted(bytes, line),
    }
}

fn push_line(bytes: &mut Vec<u8>, text: &str) -> Result<(), Fault> {
    bytes.extend_from_slice(text.as_bytes())?;
    bytes.push(b'\n')?;
    Ok(())
}

fn push_quoted(bytes: &mut Vec<u8>, line: &str) -> Result<(), Fault> {
    let texts = Reading::read(*bytes.allocator(), line)?;
    bytes.extend_from_slice(&texts)?;
    Ok(())
}

impl Reading {
    // The bytes of all texts of a line.
    fn read(alloc: Global, line: &str) -> Result<Vec<u8>, Fault> {
        let mut reading = Reading {
            bytes: Vec::new(alloc),
            last: 0,
            ranges: String::new(alloc),
            place: Place::Between,
        };
        for letter in line.chars() {
            reading.take(letter)?;
        }
        reading.end()
    }

    // Takes the next letter.
    fn take(&mut self, letter: char) -> Result<(), Fault> {
        match self.place {
            Place::Between => self.begin(letter),
            Place::Inside => self.take_inside(letter),
            Place::Escape(digits) => self.take_escaped(digits, letter),
            Place::Behind => self.take_behind(letter),
            Place::Count(count) => self.take_count(count, letter),
            Place::Braces => self.take_range(letter),
        }
    }

    // Takes a letter between two texts.
    fn begin(&mut self, letter: char) -> Result<(), Fault> {
        match letter {
            ' ' => self.place = Place::Between,
            '"' => {
                self.last = self.bytes.len();
                self.place = Place::Inside;
            }
            '{' => self.place = Place::Braces,
            _ => return Err(Fault::Unread),
        }
        Ok(())
    }

    // Takes a letter inside of quotes.
    fn take_inside(&mut self, letter: char) -> Result<(), Fault> {
        match letter {
            '"' => self.place = Place::Behind,
            '\\' => self.place = Place::Escape(Digits::Unknown),
            _ => {
                let mut room = [0; 4];
                let text = letter.encode_utf8(&mut room);
                self.bytes.extend_from_slice(text.as_bytes())?;
            }
        }
        Ok(())
    }

    // Takes a letter behind a backslash.
    fn take_escaped(&mut self, digits: Digits, letter: char) -> Result<(), Fault> {
        match digits {
            Digits::Unknown => self.take_escape(letter),
            Digits::None => self.take_high(letter),
            Digits::High(high) => self.take_low(high, letter),
        }
    }

    // Takes the first digit of a byte.
    fn take_high(&mut self, letter: char) -> Result<(), Fault> {
        let high = letter.to_digit(16).ok_or(Fault::Unread)?;
        self.place = Place::Escape(Digits::High(high));
        Ok(())
    }

    // Takes the second digit of a byte.
    fn take_low(&mut self, high: u32, letter: char) -> Result<(), Fault> {
        let low = letter.to_digit(16).ok_or(Fault::Unread)?;
        let byte = high.saturating_mul(16).saturating_add(low);
        self.push(u8::try_from(byte).ok().ok_or(Fault::Unread)?)
    }

    // Takes a letter behind the closing quotes.
    fn take_behind(&mut self, letter: char) -> Result<(), Fault> {
        if letter == '^' {
            self.place = Place::Count(0);
            return Ok(());
        }
        self.begin(letter)
    }

    // Takes the first letter behind a backslash.
    fn take_escape(&mut self, letter: char) -> Result<(), Fault> {
        match letter {
            'n' => self.push(b'\n'),
            't' => self.push(b'\t'),
            'r' => self.push(b'\r'),
            '0' => self.push(0),
            '\\' => self.push(b'\\'),
            '"' => self.push(b'"'),
            'x' => {
                self.place = Place::Escape(Digits::None);
                Ok(())
            }
            _ => Err(Fault::Unread),
        }
    }

    // Takes a digit of the number of times, or what is behind it.
    fn take_count(&mut self, count: usize, letter: char) -> Result<(), Fault> {
        if let Some(digit) = letter.to_digit(10) {
            let tens = count.checked_mul(10).ok_or(Fault::Unread)?;
            let count = tens.checked_add(digit as usize).ok_or(Fault::Unread)?;
            self.place = Place::Count(count);
            return Ok(());
        }
        self.repeat(count)?;
        self.begin(letter)
    }

    // Takes a letter in braces.
    fn take_range(&mut self, letter: char) -> Result<(), Fault> {
        if letter != '}' {
            self.ranges.push(letter)?;
            return Ok(());
        }
        push_ranges(&mut self.bytes, &self.ranges)?;
        self.ranges.clear();
        self.place = Place::Between;
        Ok(())
    }

    // Adds a byte inside of quotes.
    fn push(&mut self, byte: u8) -> Result<(), Fault> {
        self.bytes.push(byte)?;
        self.place = Place::Inside;
        Ok(())
    }

    // Makes of the last text so many.
    fn repeat(&mut self, count: usize) -> Result<(), Fault> {
        let text = self.bytes.get(self.last..).ok_or(Fault::Unread)?;
        let text = Vec::from_slice(*self.bytes.allocator(), text)?;
        self.bytes.truncate(self.last);
        push_times(&mut self.bytes, &text, count)
    }

    // The bytes of all texts.
    fn end(mut self) -> Result<Vec<u8>, Fault> {
        match self.place {
            Place::Between | Place::Behind => Ok(self.bytes),
            Place::Count(count) => {
                self.repeat(count)?;
                Ok(self.bytes)
            }
            Place::Inside | Place::Escape(_) | Place::Braces => Err(Fault::Unread),
        }
    }
}

// Adds a text so many times.
fn push_times(bytes: &mut Vec<u8>, text: &[u8], count: usize) -> Result<(), Fault> {
    for _ in 0..count {
        bytes.extend_from_slice(text)?;
    }
    Ok(())
}

// Adds the numbers of some ranges in decimal, ascending, each once and with a space before it.
fn push_ranges(bytes: &mut Vec<u8>, ranges: &str) -> Result<(), Fault> {
    let mut numbers = Vec::new(*bytes.allocator());
    for range in ranges.split_whitespace() {
        add_range(&mut numbers, range)?;
    }
    numbers.sort_unstable();
    let mut last = None;
    for number in &numbers {
        if last != Some(*number) {
            push_decimal(bytes, *number)?;
        }
        last = Some(*number);
    }
    Ok(())
}

// Adds the numbers of a range to a list.
fn add_range(numbers: &mut Vec<u64>, range: &str) -> Result<(), Fault> {
    let (first, rest) = range.split_once("..").ok_or(Fault::Unread)?;
    let range = Numbers::read(first, rest)?;
    let mut number = range.first;
    for _ in 0..range.count {
        numbers.push(number)?;
        number = number.saturating_add(range.step);
    }
    Ok(())
}

// Adds a space and a number in decimal.
fn push_decimal(bytes: &mut Vec<u8>, number: u64) -> Result<(), Fault> {
    let text = format!(in *bytes.allocator(); " {number}")?;
    bytes.extend_from_slice(text.as_bytes())?;
    Ok(())
}
