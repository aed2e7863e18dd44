// The texts of replies.
use query_text::{Bad, bad_reply, list_reply, next_reply, top_reply};
use std::test::Fail;

#[test]
fn replies_end_with_a_newline(rt: HostRuntime) -> Result<(), Fail> {
    let postings = [
        (Some((2, 5)), "2 5\n"),
        (Some((4_294_967_295, 1_000)), "4294967295 1000\n"),
        (None, "end\n"),
    ];
    for (posting, want) in postings {
        assert_eq!(rt;
            next_reply(rt.alloc(), posting)?.as_slice(),
            want.as_bytes()
        );
    }
    let lists = [
        ([0, 2].as_slice(), "2 0 2\n"),
        (&[1, 2, 4], "3 1 2 4\n"),
        (&[], "0\n"),
    ];
    for (docs, want) in lists {
        assert_eq!(rt; list_reply(rt.alloc(), docs)?.as_slice(), want.as_bytes());
    }
    let tops = [
        ([(4, 4), (1, 3)].as_slice(), "2 4:4 1:3\n"),
        (
            &[(10, 18_446_744_073_709_551_615)],
            "1 10:18446744073709551615\n",
        ),
        (&[], "0\n"),
    ];
    for (top, want) in tops {
        assert_eq!(rt; top_reply(rt.alloc(), top)?.as_slice(), want.as_bytes());
    }
    Ok(())
}

#[test]
fn refusals_are_told(rt: HostRuntime) {
    let cases = [
        (Bad::Length, "bad length\n"),
        (Bad::Verb, "bad verb\n"),
        (Bad::Number, "bad number\n"),
        (Bad::Weight, "bad weight\n"),
        (Bad::Terms, "bad terms\n"),
        (Bad::Term, "bad term\n"),
    ];
    for (rule, want) in cases {
        assert_eq!(rt; bad_reply(rule), want.as_bytes());
    }
}
