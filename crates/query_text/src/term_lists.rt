// The terms that a line names.
ghost use Rattle.std.specs.Prelude.{◌≡◌, ◌++◌, ◌∷◌, [], length, take, IfOk, IfSome, IsOk, MatchResult};
ghost use Rattle.query_text.specs.Lines.{fields};
ghost use Rattle.query_text.specs.Numbers.{numbers_of};
ghost use Rattle.query_text.specs.Parse.{Parses, terms_named};

use crate::fields::next_field;
use crate::numbers::next_number;
use crate::query::{Bad, NumberList, ParseError, Terms};
use smallvec::SmallVec;
use std::alloc::{AllocError, Global};

// The most numbers of terms in a line, counted as written.
pub(crate) const MOST_LINE_TERMS: usize = 1024;

// Puts an item behind those of a list, where the list has room for it.
pub(crate) fn keep<T: Drop, const N: usize>(kept: &mut SmallVec<T, N>, item: T)
    ensures items { kept.new.items ≡ take kept.old.capacity (kept.old.items ++ item ∷ []) }
    ensures capacity { kept.new.capacity ≡ kept.old.capacity }
{
    if kept.len() < kept.capacity() {
        kept.push_reserved(item);
    }
}

// The first numbers of terms, as many as take no memory, and how many numbers there are, or the
// first rule that they break.
fn first_terms(alloc: Global, arguments: &[u8], terms: u32) -> Result<(NumberList, usize), Bad>
    ensures named { MatchResult result
        (λ _. IsOk (terms_named terms (numbers_of (fields arguments.now))))
        (λ bad. terms_named terms (numbers_of (fields arguments.now)) ≡ Err bad) }
    ensures first { IfOk result (λ read. IfSome (numbers_of (fields arguments.now))
        (λ numbers. read.0.items ≡ take 8 numbers)) }
    ensures count { IfOk result (λ read. IfSome (numbers_of (fields arguments.now))
        (λ numbers. read.1 ≡ length numbers)) }
{
    let mut rest = arguments;
    let mut first = NumberList::new(alloc);
    let mut count: usize = 0;
    let mut all_there = true;
    while let Some((term, behind)) = next_number(rest) {
        count += 1;
        all_there &= term < terms;
        keep(&mut first, term);
        rest = behind;
    }
    if next_field(rest).is_some() {
        return Err(Bad::Number);
    }
    if count > MOST_LINE_TERMS {
        return Err(Bad::Terms);
    }
    if !all_there {
        return Err(Bad::Term);
    }
    Ok((first, count))
}

// The numbers of a text, as written.
fn written_numbers(alloc: Global, text: &[u8]) -> Result<NumberList, AllocError>
    ensures { IfOk result (λ found. IfSome (numbers_of (fields text.now))
        (λ numbers. found.items ≡ numbers)) }
{
    let mut numbers = NumberList::new(alloc);
    let mut rest = text;
    while let Some((number, behind)) = next_number(rest) {
        numbers.push(number)?;
        rest = behind;
    }
    Ok(numbers)
}

// The numbers of a text, of which the first were read before.
fn all_numbers(
    alloc: Global,
    text: &[u8],
    first: NumberList,
    count: usize,
) -> Result<NumberList, AllocError>
    requires first { IfSome (numbers_of (fields text.now))
        (λ numbers. first.items ≡ take 8 numbers) }
    requires count { IfSome (numbers_of (fields text.now)) (λ numbers. count ≡ length numbers) }
    ensures { IfOk result (λ found. IfSome (numbers_of (fields text.now))
        (λ numbers. found.items ≡ numbers)) }
{
    if count == first.len() {
        Ok(first)
    } else {
        written_numbers(alloc, text)
    }
}

// The distinct terms that numbers name over so many terms, or the first rule that they break.
pub(crate) fn read_terms(alloc: Global, arguments: &[u8], terms: u32) -> Result<Terms, ParseError>
    ensures { Parses result (terms_named terms (numbers_of (fields arguments.now))) }
{
    let (first, count) = first_terms(alloc, arguments, terms)?;
    let numbers = all_numbers(alloc, arguments, first, count)?;
    Ok(Terms::from_numbers(numbers))
}
