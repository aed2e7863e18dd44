ghost use Rattle.std.specs.Prelude.{◌≡◌, ◌≤◌, length, ◌++◌, bytes_eq, option_map, string_bytes};
ghost use Rattle.std.specs.List.{prefix_len};
ghost use Rattle.command_line.specs.Asked.{asked};
ghost use Rattle.command_line.specs.Command.{built_in, by_row, chosen_in, command_with, format_of, is_file_of, is_text, merged_into, migrated_to, one_of, plan_of, takes_place, texts, three_of, two_of, value_in};
ghost use Rattle.command_line.specs.Table.{seen};

use crate::table::{Choice, Row, Verb};
use part_cost::Format;
use query_text::number;
use topk_pruning::Plan;

/// How a file has the lists of an index: each as words of its own, or packed as bits without gaps.
#[derive(Clone, Copy, Debug, PartialEq, Eq)]
pub enum FileKind {
    Plain,
    Packed,
}

/// What the words of the command line ask for.
#[derive(Clone, Copy, Debug, PartialEq, Eq)]
pub enum Command<'a> {
    Build {
        base: &'a str,
        index: &'a str,
        format: Format,
    },
    Query {
        index: &'a str,
        plan: Plan,
    },
    Answer {
        base: &'a str,
        plan: Plan,
    },
    Inspect {
        index: &'a str,
    },
    Generate {
        seed: u32,
        documents: u32,
        terms: u32,
    },
    Migrate {
        from: &'a str,
        to: &'a str,
        kind: FileKind,
    },
    Audit {
        index: &'a str,
    },
    Blocks {
        index: &'a str,
        side: &'a str,
    },
    BlockQuery {
        index: &'a str,
        side: &'a str,
    },
    Remap {
        base: &'a str,
        map: &'a str,
        to: &'a str,
    },
    Segments {
        /// From 1 to 64.
        indexes: &'a [String],
        plan: Plan,
    },
    Export {
        index: &'a str,
        base: &'a str,
    },
    IntervalQuery {
        index: &'a str,
    },
    Merge {
        /// From 1 to 64.
        indexes: &'a [String],
        to: &'a str,
    },
}

// The command of a row, with as many texts as it may have, and then its option or nothing.
pub(crate) fn by_row<'a>(row: Row, words: &'a [String]) -> Option<Command<'a>>
    ensures { option_map asked result ≡ by_row (seen row) (texts words.now) }
{
    let count = texts_before(words);
    if count < row.fewest || row.most < count {
        return None;
    }
    let (texts, rest) = words.split_at(count);
    command_with(row.verb, texts, value_in(row.choice, rest)?)
}

// How many words stand before the first that can be no text of a command.
fn texts_before(words: &[String]) -> usize
    ensures count { result ≡ prefix_len (λ word. is_text (string_bytes word)) words.now }
    ensures within { result ≤ length words.now }
{
    words
        .iter()
        .take_while(|word| can_be_text(word.as_str()))
        .count()
}

// The value of an option where words are the option with a text, or nothing; where there may be
// none, an empty text.
fn value_in(choice: Option<Choice>, words: &[String]) -> Option<&str>
    ensures { option_map (λ text. text.now) result ≡ value_in choice (texts words.now) }
{
    match choice {
        Some(choice) => chosen_in(choice, words),
        None => words.is_empty().then_some(""),
    }
}

// The value of an option where words are the option with a text; its default where there are none.
fn chosen_in(choice: Choice, words: &[String]) -> Option<&str>
    ensures { option_map (λ text. text.now) result ≡ chosen_in choice (texts words.now) }
{
    match words {
        [] => Some(choice.default()),
        [option, value] => {
            let is_named = is_joined(option.as_bytes(), b"--", choice.name().as_bytes());
            (is_named && can_be_text(value.as_str())).then_some(value.as_str())
        }
        _ => None,
    }
}

// The command of a verb, of the texts behind it and of the value of its option; none where they do
// not go together.
pub(crate) fn command_with<'a>(verb: Verb, words: &'a [String], value: &str) -> Option<Command<'a>>
    ensures { option_map asked result ≡ command_with verb (texts words.now) value.now }
{
    match verb {
        Verb::Build => build(words, parse_format(value)?),
        Verb::Query => Some(Command::Query {
            index: one(words)?,
            plan: parse_plan(value)?,
        }),
        Verb::Answer => Some(Command::Answer {
            base: one(words)?,
            plan: parse_plan(value)?,
        }),
        Verb::Inspect => Some(Command::Inspect { index: one(words)? }),
        Verb::Generate => {
            let (seed, documents, terms) = three(words)?;
            Some(Command::Generate {
                seed: number(seed.as_bytes())?,
                documents: number(documents.as_bytes())?,
                terms: number(terms.as_bytes())?,
            })
        }
        Verb::Migrate => migrate(words, FileKind::Plain),
        Verb::Audit => Some(Command::Audit { index: one(words)? }),
        Verb::Blocks => {
            let (index, side) = two(words)?;
            (index != side).then_some(Command::Blocks { index, side })
        }
        Verb::BlockQuery => {
            let (index, side) = two(words)?;
            Some(Command::BlockQuery { index, side })
        }
        Verb::Remap => {
            let (base, map, to) = three(words)?;
            (!takes_place(base, map, to)).then_some(Command::Remap { base, map, to })
        }
        Verb::Segments => Some(Command::Segments {
            indexes: words,
            plan: parse_plan(value)?,
        }),
        Verb::Pack => build(words, Format::Three),
        Verb::Repack => migrate(words, FileKind::Packed),
        Verb::Export => {
            let (index, base) = two(words)?;
            (!is_file_of(base, index)).then_some(Command::Export { index, base })
        }
        Verb::IntervalQuery => Some(Command::IntervalQuery { index: one(words)? }),
        Verb::Merge => merge(words),
    }
}

// A base and an index that is none of its files, in a format.
fn build<'a>(words: &'a [String], format: Format) -> Option<Command<'a>>
    ensures { option_map asked result ≡ built_in (texts words.now) format }
{
    let (base, index) = two(words)?;
    (!is_file_of(base, index)).then_some(Command::Build {
        base,
        index,
        format,
    })
}

// An index and another name, for a new one of a kind.
fn migrate<'a>(words: &'a [String], kind: FileKind) -> Option<Command<'a>>
    ensures { option_map asked result ≡ migrated_to kind (texts words.now) }
{
    let (from, to) = two(words)?;
    (from != to).then_some(Command::Migrate { from, to, kind })
}

// Indexes, and behind them the name of a new one, which is none of theirs.
fn merge<'a>(words: &'a [String]) -> Option<Command<'a>>
    ensures { option_map asked result ≡ merged_into (texts words.now) }
{
    let last = words.len().checked_sub(1)?;
    let (indexes, to) = (&words[..last], words[last].as_str());
    let is_taken = indexes.iter().any(|index| index.as_str() == to);
    (!is_taken).then_some(Command::Merge { indexes, to })
}

// The text of one word.
fn one(words: &[String]) -> Option<&str>
    ensures { option_map (λ text. text.now) result ≡ one_of (texts words.now) }
{
    match words {
        [text] => Some(text.as_str()),
        _ => None,
    }
}

// The texts of two words.
fn two(words: &[String]) -> Option<(&str, &str)>
    ensures { option_map (λ names. (names.0.now, names.1.now)) result ≡ two_of (texts words.now) }
{
    match words {
        [first, second] => Some((first.as_str(), second.as_str())),
        _ => None,
    }
}

// The texts of three words.
fn three(words: &[String]) -> Option<(&str, &str, &str)>
    ensures { option_map (λ names. (names.0.now, names.1.now, names.2.now)) result
        ≡ three_of (texts words.now) }
{
    match words {
        [first, second, third] => Some((first.as_str(), second.as_str(), third.as_str())),
        _ => None,
    }
}

// Whether a collection under a new base would take the place of the map, or of a file of the
// collection.
#[tactic(auto, using(crate::proofs::Endings::place_taken))]
fn takes_place(base: &str, map: &str, to: &str) -> bool
    ensures { result ≡ takes_place base.now map.now to.now }
{
    to == base || is_file_of(to, map)
}

// The plan of this name.
fn parse_plan(name: &str) -> Option<Plan>
    ensures { result ≡ plan_of name.now }
{
    match name {
        "exhaustive" => Some(Plan::Exhaustive),
        "wand" => Some(Plan::Wand),
        "maxscore" => Some(Plan::MaxScore),
        _ => None,
    }
}

// The format of this name.
fn parse_format(name: &str) -> Option<Format>
    ensures { result ≡ format_of name.now }
{
    match name {
        "1" => Some(Format::One),
        "2" => Some(Format::Two),
        _ => None,
    }
}

// Whether an index under this name would take the place of a file of the collection.
fn is_file_of(base: &str, name: &str) -> bool
    ensures { result ≡ is_file_of base.now name.now }
{
    let (base, name) = (base.as_bytes(), name.as_bytes());
    is_joined(name, base, b".docs")
        || is_joined(name, base, b".freqs")
        || is_joined(name, base, b".sizes")
}

// Whether a name is a text and then an ending.
#[tactic(auto, using(crate::proofs::Endings::joined_eq))]
fn is_joined(name: &[u8], text: &[u8], ending: &[u8]) -> bool
    ensures { result ≡ bytes_eq name.now (text.now ++ ending.now) }
{
    match name.strip_prefix(text) {
        Some(rest) => rest == ending,
        None => false,
    }
}

// Whether a word can be a text of a command: it is not empty, is not `help`, and begins with no
// minus sign.
fn can_be_text(word: &str) -> bool
    ensures { result ≡ is_text word.now }
{
    !word.is_empty() && word != "help" && !word.starts_with('-')
}
