// The texts of summaries and audits.
use part_cost::Which;
use pef_report::{Counts, audit_end, audit_line, summary};
use std::test::Fail;

// Two postings in one list over three documents, in the first format.
#[test]
fn summary_of_eighteen_words(rt: HostRuntime) -> Result<(), Fail> {
    let counts = Counts {
        bitmap_parts: 2,
        documents: 3,
        ef_parts: 0,
        ones_parts: 0,
        payload_bits: 9,
        postings: 2,
        size_total: 11,
        terms: 1,
        version: 1,
        words: 18,
    };
    let value = summary(rt.alloc(), &counts).expect(&rt, "memory");
    let text = value.to_string(rt.alloc())?;
    let wanted =
        "{\"bitmap_parts\":2,\"documents\":3,\"ef_parts\":0,\"ones_parts\":0,\"payload_bits\":9,\"postings\":2,\"size_total\":11,\"terms\":1,\"version\":1,\"words\":18}";
    assert_eq!(rt; text.as_str(), wanted);
    Ok(())
}

#[test]
fn audited_lines(rt: HostRuntime) {
    let docs = audit_line(rt.alloc(), 0, Which::Docs, 258, 131, 131).expect(&rt, "memory");
    assert_eq!(rt; docs.as_str(), "0 docs 258 131 131\n");
    let freqs = audit_line(rt.alloc(), 4_294_967_295, Which::Freqs, 5_900, 5_886, 5_769).expect(
        &rt, "memory",
    );
    assert_eq!(rt; freqs.as_str(), "4294967295 freqs 5900 5886 5769\n");
    let end = audit_end(rt.alloc(), 2, 0).expect(&rt, "memory");
    assert_eq!(rt; end.as_str(), "sequences 2 longer 0\n");
}
