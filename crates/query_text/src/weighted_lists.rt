// The weighted terms that a line names.
ghost use Rattle.std.specs.Prelude.{◌≡◌, ◌==◌, ◌<◌, ◌⊎◌, [], length, position, take, IfOk, IfSome, IsOk, MatchOption, MatchResult};
ghost use Rattle.query_text.specs.Lines.{fields};
ghost use Rattle.query_text.specs.Numbers.{field_before};
ghost use Rattle.query_text.specs.Weights.{is_weight, star, weighted_fields, weighted_of};
ghost use Rattle.query_text.specs.Parse.{Parses, weighted_named};

use crate::fields::next_field;
use crate::numbers::number;
use crate::query::{Bad, ParseError};
use crate::term_lists::{MOST_LINE_TERMS, keep};
use crate::weighted_terms::Weighted;
use smallvec::SmallVec;
use std::alloc::{AllocError, Global};

// The greatest weight of a field.
const GREATEST_WEIGHT: u32 = 65_535;

// Terms and weights, as written.
type FieldList = SmallVec<(u32, u32), 8>;

// Whether a number is a weight of a field.
fn is_weight(weight: u32) -> bool
    ensures { result ≡ is_weight weight }
{
    1 <= weight && weight <= GREATEST_WEIGHT
}

// The place of the first star of a field.
fn first_star(field: &[u8]) -> Option<usize>
    ensures place { result ≡ position (λ b. b == star) field.now }
    ensures within { IfSome result (λ at. at < length field.now) }
{
    field.iter().position(|byte| *byte == b'*')
}

// The term and the weight of a field: `T`, of weight 1, or `T*W`.
fn weighted(field: &[u8]) -> Option<(u32, u32)>
    ensures { result ≡ weighted_of field.now }
{
    match first_star(field) {
        None => Some((number(field)?, 1)),
        Some(star) => Some((number(&field[..star])?, number(&field[star + 1..])?)),
    }
}

// The term and the weight of the first field of a text and the text behind it, None where there is
// no field or it is of another form.
fn next_weighted(text: &[u8]) -> Option<((u32, u32), &[u8])>
    ensures first { MatchOption result
        ((weighted_fields (fields text.now) ≡ Some []) ⊎ (weighted_fields (fields text.now) ≡ None))
        (λ cut. weighted_fields (fields text.now)
        ≡ field_before (Some cut.0) (weighted_fields (fields cut.1.now))) }
    ensures shorter { IfSome result (λ cut. length cut.1.now < length text.now) }
{
    let (field, rest) = next_field(text)?;
    Some((weighted(field)?, rest))
}

// The first weighted fields, as many as take no memory, and how many fields there are, or the first
// rule that they break.
fn first_fields(alloc: Global, arguments: &[u8], terms: u32) -> Result<(FieldList, usize), Bad>
    ensures named { MatchResult result
        (λ _. IsOk (weighted_named terms (weighted_fields (fields arguments.now))))
        (λ bad. weighted_named terms (weighted_fields (fields arguments.now)) ≡ Err bad) }
    ensures first { IfOk result (λ read. IfSome (weighted_fields (fields arguments.now))
        (λ written. read.0.items ≡ take 8 written)) }
    ensures count { IfOk result (λ read. IfSome (weighted_fields (fields arguments.now))
        (λ written. read.1 ≡ length written)) }
{
    let mut rest = arguments;
    let mut first = FieldList::new(alloc);
    let mut count: usize = 0;
    let mut all_weigh = true;
    let mut all_there = true;
    while let Some((field, behind)) = next_field(rest) {
        let (term, weight) = weighted(field).ok_or(Bad::Number)?;
        count += 1;
        all_weigh &= is_weight(weight);
        all_there &= term < terms;
        keep(&mut first, (term, weight));
        rest = behind;
    }
    if !all_weigh {
        return Err(Bad::Weight);
    }
    if count > MOST_LINE_TERMS {
        return Err(Bad::Terms);
    }
    if !all_there {
        return Err(Bad::Term);
    }
    Ok((first, count))
}

// The terms and the weights of a text, as written.
fn written_fields(alloc: Global, text: &[u8]) -> Result<FieldList, AllocError>
    ensures { IfOk result (λ found. IfSome (weighted_fields (fields text.now))
        (λ written. found.items ≡ written)) }
{
    let mut found = FieldList::new(alloc);
    let mut rest = text;
    while let Some((field, behind)) = next_weighted(rest) {
        found.push(field)?;
        rest = behind;
    }
    Ok(found)
}

// The terms and the weights of a text, of which the first were read before.
fn all_fields(
    alloc: Global,
    text: &[u8],
    first: FieldList,
    count: usize,
) -> Result<FieldList, AllocError>
    requires first { IfSome (weighted_fields (fields text.now))
        (λ written. first.items ≡ take 8 written) }
    requires count { IfSome (weighted_fields (fields text.now))
        (λ written. count ≡ length written) }
    ensures { IfOk result (λ found. IfSome (weighted_fields (fields text.now))
        (λ written. found.items ≡ written)) }
{
    if count == first.len() {
        Ok(first)
    } else {
        written_fields(alloc, text)
    }
}

// The distinct terms that weighted fields name over so many terms, or the first rule that they
// break.
pub(crate) fn read_weighted(
    alloc: Global,
    arguments: &[u8],
    terms: u32,
) -> Result<Weighted, ParseError>
    ensures { Parses result (weighted_named terms (weighted_fields (fields arguments.now))) }
{
    let (first, count) = first_fields(alloc, arguments, terms)?;
    let found = all_fields(alloc, arguments, first, count)?;
    Ok(Weighted::from_fields(alloc, found.as_slice())?)
}
