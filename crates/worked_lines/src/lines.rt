// What lines ask, and the rules that they break.
use query_text::{Bad, ParseError, Query, Weighted, parse};
use std::alloc::{AllocError, Global};
use std::test::Fail;

// The number k of a query `top`, and each of its terms with its weight behind it.
fn weighted(alloc: Global, k: u32, terms: &Weighted) -> Result<Vec<u32>, AllocError> {
    let mut numbers = Vec::from_slice(alloc, &[k])?;
    for (term, weight) in terms.terms().iter().zip(terms.weights()) {
        numbers.extend_from_slice(&[*term, *weight])?;
    }
    Ok(numbers)
}

// The verb of a query and its numbers.
fn spelled(alloc: Global, query: &Query) -> Result<(&'static str, Vec<u32>), AllocError> {
    match query {
        Query::Next { term, doc } => Ok(("next", Vec::from_slice(alloc, &[*term, *doc])?)),
        Query::And(terms) => Ok(("and", Vec::from_slice(alloc, terms.as_slice())?)),
        Query::Or(terms) => Ok(("or", Vec::from_slice(alloc, terms.as_slice())?)),
        Query::Top { k, terms } => Ok(("top", weighted(alloc, *k, terms)?)),
    }
}

// What a line asks over so many terms: its verb and its numbers.
fn asked(alloc: Global, line: &[u8], terms: u32) -> Result<(&'static str, Vec<u32>), ParseError> {
    let query = parse(alloc, line, terms)?;
    Ok(spelled(alloc, &query)?)
}

// Why a line asks nothing over so many terms.
fn refused(alloc: Global, line: &[u8], terms: u32) -> Option<ParseError> {
    parse(alloc, line, terms).err()
}

// A line, and what it asks of ten terms: its verb and its numbers.
const ASKED: [(&str, &str, &[u32]); 14] = [
    ("next 0 1", "next", &[0, 1]),
    ("  next   009 4294967295 ", "next", &[9, 4_294_967_295]),
    ("and", "and", &[]),
    ("and 1 0", "and", &[0, 1]),
    ("or 0 0", "or", &[0]),
    (
        "or 9 8 7 6 5 4 3 2 1 0 9 0 5",
        "or",
        &[0, 1, 2, 3, 4, 5, 6, 7, 8, 9],
    ),
    ("top 2 0 1", "top", &[2, 0, 1, 1, 1]),
    ("top 9 0 0", "top", &[9, 0, 2]),
    ("top 3 0*2 1", "top", &[3, 0, 2, 1, 1]),
    ("top 2 1*2 0", "top", &[2, 0, 1, 1, 2]),
    ("top 1 0*65535", "top", &[1, 0, 65_535]),
    ("top 2 0*00002 1", "top", &[2, 0, 2, 1, 1]),
    ("top 4 9*3 0 9*4 0*5", "top", &[4, 0, 6, 9, 7]),
    ("top 4294967295", "top", &[4_294_967_295]),
];

#[test]
fn lines_ask(rt: HostRuntime) -> Result<(), Fail> {
    for &(line, verb, numbers) in &ASKED {
        let (found_verb, found) = asked(rt.alloc(), line.as_bytes(), 10)?;
        assert_eq!(rt; found_verb, verb, "at {line}");
        assert_eq!(rt; found.as_slice(), numbers, "at {line}");
    }
    Ok(())
}

// A line over two terms, and the rule that it breaks.
const BROKEN_RULES: [(&str, Bad); 37] = [
    ("next 2 0", Bad::Term),
    ("next 0", Bad::Number),
    ("next", Bad::Number),
    ("next 0 1 2", Bad::Number),
    ("next 0 4294967296", Bad::Number),
    ("next 0 18446744073709551616", Bad::Number),
    ("next 7 x", Bad::Number),
    ("next 0 +1", Bad::Number),
    ("next 0 1\r", Bad::Number),
    ("next 0\t1", Bad::Number),
    ("and 7", Bad::Term),
    ("or 0 7 x", Bad::Number),
    ("top x 0", Bad::Number),
    ("top 4294967296 0", Bad::Number),
    ("top 1 0 2", Bad::Term),
    ("top", Bad::Number),
    ("top 1 0*65536", Bad::Weight),
    ("top 2 0 0*0", Bad::Weight),
    ("top 1 9*0", Bad::Weight),
    ("top 1 0*0 x", Bad::Number),
    ("top x 0*0", Bad::Number),
    ("top 1 0*", Bad::Number),
    ("top 1 *2", Bad::Number),
    ("top 1 *", Bad::Number),
    ("top 1 0*2*3", Bad::Number),
    ("top 1*2 0", Bad::Number),
    ("top 1 0*4294967296", Bad::Number),
    ("top 1 9*65535", Bad::Term),
    ("and 0*2", Bad::Number),
    ("or 0*1", Bad::Number),
    ("next 0*1 0", Bad::Number),
    ("next 0 1*1", Bad::Number),
    ("next\t0 1", Bad::Verb),
    ("near 0", Bad::Verb),
    ("And 0", Bad::Verb),
    ("   ", Bad::Verb),
    ("", Bad::Verb),
];

#[test]
fn lines_break_rules(rt: HostRuntime) {
    for &(line, want) in &BROKEN_RULES {
        assert_eq!(rt;
            refused(rt.alloc(), line.as_bytes(), 2),
            Some(ParseError::Bad(want)),
            "at {line}"
        );
    }
}

#[test]
fn terms_are_counted_as_written(rt: HostRuntime) -> Result<(), Fail> {
    let mut line = Vec::from_slice(rt.alloc(), b"or")?;
    for _ in 0..1024 {
        line.extend_from_slice(b" 0")?;
    }
    let (verb, terms) = asked(rt.alloc(), &line, 1)?;
    assert_eq!(rt; verb, "or");
    assert_eq!(rt; terms.as_slice(), [0].as_slice());
    line.extend_from_slice(b" 7")?;
    assert_eq!(rt;
        refused(rt.alloc(), &line, 1),
        Some(ParseError::Bad(Bad::Terms))
    );
    Ok(())
}

// A line of `top 1` with so many fields behind it.
fn top_line(alloc: Global, field: &str, count: usize) -> Result<Vec<u8>, AllocError> {
    let mut line = Vec::from_slice(alloc, b"top 1")?;
    for _ in 0..count {
        line.push(b' ')?;
        line.extend_from_slice(field.as_bytes())?;
    }
    Ok(line)
}

#[test]
fn weighted_fields_are_counted_as_written(rt: HostRuntime) -> Result<(), Fail> {
    let line = top_line(rt.alloc(), "0*65535", 1024)?;
    let (_, numbers) = asked(rt.alloc(), &line, 1)?;
    assert_eq!(rt; numbers.as_slice(), [1, 0, 67_107_840].as_slice());
    let cases = [
        ("0*0", Bad::Weight),
        ("0*1", Bad::Terms),
        ("7*1", Bad::Terms),
        ("0*", Bad::Number),
    ];
    for (field, want) in cases {
        let line = top_line(rt.alloc(), field, 1025)?;
        assert_eq!(rt;
            refused(rt.alloc(), &line, 1),
            Some(ParseError::Bad(want)),
            "at {field}"
        );
    }
    Ok(())
}

#[test]
fn the_longest_line_is_read(rt: HostRuntime) -> Result<(), Fail> {
    let mut line = Vec::from_slice(rt.alloc(), b"next 0 1")?;
    line.resize(65_535, b' ')?;
    let (verb, numbers) = asked(rt.alloc(), &line, 1)?;
    assert_eq!(rt; verb, "next");
    assert_eq!(rt; numbers.as_slice(), [0, 1].as_slice());
    line.push(b' ')?;
    assert_eq!(rt;
        refused(rt.alloc(), &line, 1),
        Some(ParseError::Bad(Bad::Length))
    );
    Ok(())
}
