// What a line asks.
ghost use Rattle.std.specs.Prelude.{◌≡◌, IfOk};
ghost use Rattle.query_text.specs.Lines.{fields};
ghost use Rattle.query_text.specs.Numbers.{numbers_of};
ghost use Rattle.query_text.specs.Parse.{NamesTerms, Parses, fields_query, next_query, parse_line, top_query};

use crate::fields::next_field;
use crate::numbers::{next_number, number};
use crate::query::{Bad, ParseError, Query};
use crate::term_lists::read_terms;
use crate::weighted_lists::read_weighted;
use std::alloc::Global;

// The most bytes of a line.
const LONGEST_LINE: usize = 65_535;

// What `next` asks with the fields behind the verb.
fn next_query(arguments: &[u8], terms: u32) -> Result<Query, Bad>
    ensures { result ≡ next_query terms (numbers_of (fields arguments.now)) }
{
    let (term, arguments) = next_number(arguments).ok_or(Bad::Number)?;
    let (doc, arguments) = next_number(arguments).ok_or(Bad::Number)?;
    if next_field(arguments).is_some() {
        return Err(Bad::Number);
    }
    if term < terms {
        Ok(Query::Next { term, doc })
    } else {
        Err(Bad::Term)
    }
}

// What `top` asks with the fields behind the verb.
fn top_query(alloc: Global, arguments: &[u8], terms: u32) -> Result<Query, ParseError>
    ensures { Parses result (top_query terms (fields arguments.now)) }
{
    let (count, arguments) = next_field(arguments).ok_or(Bad::Number)?;
    let k = number(count).ok_or(Bad::Number)?;
    let terms = read_weighted(alloc, arguments, terms)?;
    Ok(Query::Top { k, terms })
}

// What the fields of a line ask.
fn fields_query(alloc: Global, line: &[u8], terms: u32) -> Result<Query, ParseError>
    ensures { Parses result (fields_query terms (fields line.now)) }
{
    let (verb, arguments) = next_field(line).ok_or(Bad::Verb)?;
    match verb {
        b"next" => Ok(next_query(arguments, terms)?),
        b"and" => Ok(Query::And(read_terms(alloc, arguments, terms)?)),
        b"or" => Ok(Query::Or(read_terms(alloc, arguments, terms)?)),
        b"top" => top_query(alloc, arguments, terms),
        _ => Err(ParseError::Bad(Bad::Verb)),
    }
}

/// What a line, without its newline, asks over so many terms, or the first rule that it breaks. The
/// whole line is read before memory is taken for its terms.
pub fn parse(alloc: Global, line: &[u8], terms: u32) -> Result<Query, ParseError>
    ensures asked { Parses result (parse_line terms line.now) }
    ensures named { IfOk result (NamesTerms terms) }
{
    if line.len() > LONGEST_LINE {
        return Err(ParseError::Bad(Bad::Length));
    }
    fields_query(alloc, line, terms)
}
