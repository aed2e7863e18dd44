// Texts that have names.
use crate::faults::Fault;
use crate::lines::first_word;
use std::alloc::Global;

/// Texts by name. Of two of one name the later one counts.
#[derive(Drop)]
pub struct Names {
    list: Vec<(String, String)>,
}

// Where in a text the next letter stands.
#[derive(Clone, Copy)]
enum Place {
    /// Outside of a name.
    Text,
    /// Behind a dollar sign.
    Dollar,
    /// In a name.
    Name,
    /// In a name in braces.
    Braces,
}

// A text in which names are being replaced.
#[derive(Drop)]
struct Expansion {
    text: String,
    name: String,
    place: Place,
}

impl Names {
    pub(crate) fn new(alloc: Global) -> Names {
        Names {
            list: Vec::new(alloc),
        }
    }

    pub(crate) fn add(&mut self, alloc: Global, name: &str, value: &str) -> Result<(), Fault> {
        let name = String::from_str(alloc, name)?;
        let value = String::from_str(alloc, value)?;
        self.list.push((name, value))?;
        Ok(())
    }

    /// Adds the name and the text of a line `let NAME TEXT`, in which earlier names are replaced.
    pub fn define(&mut self, alloc: Global, line: &str) -> Result<(), Fault> {
        let (name, value) = first_word(line);
        if name.is_empty() || !name.chars().all(is_of_name) {
            return Err(Fault::Unread);
        }
        let value = self.expand(alloc, value)?;
        self.add(alloc, name, &value)
    }

    /// All these names and texts once more.
    pub fn copy(&self, alloc: Global) -> Result<Names, Fault> {
        let mut names = Names::new(alloc);
        for (name, value) in &self.list {
            names.add(alloc, name, value)?;
        }
        Ok(names)
    }

    // The text of a name.
    fn value(&self, name: &str) -> Option<&str> {
        let mut found = None;
        for (other, value) in &self.list {
            if other.as_str() == name {
                found = Some(value.as_str());
            }
        }
        found
    }

    /// A text in which each `$NAME` and `${NAME}` is replaced by the text of the name, and `$$` by
    /// a dollar sign.
    pub fn expand(&self, alloc: Global, text: &str) -> Result<String, Fault> {
        let mut expansion = Expansion {
            text: String::new(alloc),
            name: String::new(alloc),
            place: Place::Text,
        };
        for letter in text.chars() {
            expansion.take(self, letter)?;
        }
        expansion.end(self)?;
        Ok(expansion.text)
    }
}

// Whether a letter may stand in a name.
fn is_of_name(letter: char) -> bool {
    letter.is_ascii_alphanumeric() || letter == '-' || letter == '_'
}

impl Expansion {
    // Takes the next letter.
    fn take(&mut self, names: &Names, letter: char) -> Result<(), Fault> {
        match self.place {
            Place::Text => self.take_text(letter),
            Place::Dollar => self.take_behind_dollar(letter),
            Place::Name => self.take_in_name(names, letter),
            Place::Braces if letter == '}' => self.end_name(names),
            Place::Braces => self.push_name(letter),
        }
    }

    // Takes a letter behind a dollar sign.
    fn take_behind_dollar(&mut self, letter: char) -> Result<(), Fault> {
        match letter {
            '$' => {
                self.place = Place::Text;
                Ok(self.text.push('$')?)
            }
            '{' => {
                self.place = Place::Braces;
                Ok(())
            }
            _ => {
                self.place = Place::Name;
                self.push_name(letter)
            }
        }
    }

    // Takes a letter in a name or behind one.
    fn take_in_name(&mut self, names: &Names, letter: char) -> Result<(), Fault> {
        if is_of_name(letter) {
            return self.push_name(letter);
        }
        self.end_name(names)?;
        self.take_text(letter)
    }

    // Adds a letter to the name.
    fn push_name(&mut self, letter: char) -> Result<(), Fault> {
        if !is_of_name(letter) {
            return Err(Fault::Unread);
        }
        self.name.push(letter)?;
        Ok(())
    }

    // Takes a letter outside of a name.
    fn take_text(&mut self, letter: char) -> Result<(), Fault> {
        if letter == '$' {
            self.place = Place::Dollar;
        } else {
            self.text.push(letter)?;
        }
        Ok(())
    }

    // Puts the text of the name that ends here.
    fn end_name(&mut self, names: &Names) -> Result<(), Fault> {
        let value = names.value(&self.name).ok_or(Fault::Unread)?;
        self.text.push_str(value)?;
        self.name.clear();
        self.place = Place::Text;
        Ok(())
    }

    // Takes the end of the text.
    fn end(&mut self, names: &Names) -> Result<(), Fault> {
        match self.place {
            Place::Text => Ok(()),
            Place::Name => self.end_name(names),
            Place::Dollar | Place::Braces => Err(Fault::Unread),
        }
    }
}
