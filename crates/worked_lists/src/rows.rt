use packed_list::{ListRead, ListViews, check_list, read_list, view_list};
use std::test::Fail;
use two_level::SeqView;

// Whether the first so many bits of the words are those of some list.
fn accepts(words: &[u64], bits: u64, documents: u32) -> bool {
    words.len() < 100 && bits <= 64 * words.len() as u64 && check_list(words, 0, bits, documents)
}

// Whether these are the values of a sequence: so many from 0 on, each one more than the one before,
// and then these.
fn is_run_and(view: &SeqView<'_>, run: u32, others: &[u64]) -> bool {
    if others.len() >= 100 || u64::from(view.len()) != u64::from(run) + others.len() as u64 {
        return false;
    }
    for k in 0..run {
        if view.get(k) != u64::from(k) {
            return false;
        }
    }
    for (i, other) in others.iter().enumerate() {
        if view.get(run + i as u32) != *other {
            return false;
        }
    }
    true
}

// Whether this is what is read of a list: its one posting, or so many as it has.
fn is_read_of(read: ListRead<'_>, list: &ListViews<'_>) -> bool {
    match read {
        ListRead::One(doc, freq) => {
            list.docs.len() == 1 && list.docs.get(0) == u64::from(doc) && list.greatest == freq
        }
        ListRead::Several(views) => {
            list.docs.len() != 1
                && views.docs.len() == list.docs.len()
                && views.greatest == list.greatest
        }
    }
}

// What a list is: its documents and the sums of its frequencies less one, each as a run and others,
// and its greatest frequency.
#[derive(Clone, Copy)]
struct Wanted<'a> {
    run: u32,
    docs: &'a [u64],
    sums: &'a [u64],
    greatest: u32,
}

// Whether the bits are those of this list.
fn states(words: &[u64], bits: u64, documents: u32, wanted: Wanted<'_>) -> bool {
    if words.len() >= 100 || bits > 64 * words.len() as u64 || bits == 0 {
        return false;
    }
    if !check_list(words, 0, bits, documents) {
        return false;
    }
    let list = view_list(words, 0, bits, documents);
    if !is_read_of(read_list(words, 0, bits, documents), &list) {
        return false;
    }
    let freqs = list.freqs.into_view();
    list.greatest == wanted.greatest
        && is_run_and(&list.docs, wanted.run, wanted.docs)
        && is_run_and(&freqs, wanted.run, wanted.sums)
}

// How many of the lists of which one bit is flipped are accepted, and whether none of them is the
// list itself.
fn flips(words: &mut [u64], bits: u64, documents: u32, wanted: Wanted<'_>) -> (u64, bool) {
    let mut accepted = 0_u64;
    let mut others = true;
    for bit in 0..bits {
        let word = (bit / 64) as usize;
        if word < words.len() && accepted < bits {
            words[word] ^= 1 << (bit % 64);
            if accepts(words, bits, documents) {
                accepted += 1;
            }
            if states(words, bits, documents, wanted) {
                others = false;
            }
            words[word] ^= 1 << (bit % 64);
        }
    }
    (accepted, others)
}

// One posting: the word, how many bits it is, the documents of the collection, the document and the
// frequency, and how many flips of one bit are accepted. The flips that are accepted are those of
// the document and of the frequency behind its highest digit.
#[test]
fn one_posting(rt: HostRuntime) -> Result<(), Fail> {
    for (word, bits, documents, doc, freq, accepted) in [
        (23, 5, 8, 5, 1, 3),
        (6_495_199_559_681, 43, 8, 5, 1_000_000, 22),
        (3, 2, 1, 0, 1, 0),
        (18_446_744_069_414_584_321, 64, 1, 0, 4_294_967_295, 31),
    ] {
        let wanted = Wanted {
            run: 0,
            docs: &[doc],
            sums: &[freq as u64 - 1],
            greatest: freq,
        };
        let mut words = [word];
        assert!(rt; states(&words, bits, documents, wanted), "{word}");
        assert!(rt; !accepts(&words, bits - 1, documents), "{word}");
        let (count, others) = flips(&mut words, bits, documents, wanted);
        assert!(rt; others, "{word}");
        assert_eq!(rt; count, accepted, "{word}");
    }
    Ok(())
}

// (0,1)(2,5) over three documents, each sequence as one part, a bitmap.
#[test]
fn two_postings(rt: HostRuntime) -> Result<(), Fail> {
    let wanted = Wanted {
        run: 0,
        docs: &[0, 2],
        sums: &[0, 5],
        greatest: 5,
    };
    let mut words = [17_443_938];
    assert!(rt; states(&words, 25, 3, wanted));
    assert!(rt; !accepts(&words, 24, 3));
    assert!(rt; !accepts(&words, 26, 3));
    // No single flip leaves two ones in both bitmaps.
    let (count, others) = flips(&mut words, 25, 3, wanted);
    assert!(rt; others);
    assert_eq!(rt; count, 0);
    for (word, wrong) in [
        (17_443_939_u64, "one posting"),
        (17_443_942, "three postings"),
        (17_444_002, "a greatest frequency of 6"),
        (17_444_194, "documents in several parts"),
        (17_444_450, "the last document is 3"),
        (17_448_034, "three ones"),
        (17_706_082, "frequencies of sum 14"),
        (666_722, "the last bit of the frequencies is not set"),
    ] {
        assert!(rt; !accepts(&[word], 25, 3), "{wrong}");
    }
    let others = Wanted {
        docs: &[1, 2],
        ..wanted
    };
    assert!(rt; states(&[17_445_986], 25, 3, others));
    // All places are taken in both sequences, so that neither part has bits.
    let ones = Wanted {
        run: 2,
        docs: &[],
        sums: &[],
        greatest: 1,
    };
    assert!(rt; states(&[42], 7, 2, ones));
    // Documents 3 and 700, in Elias-Fano form.
    let far = Wanted {
        run: 0,
        docs: &[3, 700],
        sums: &[0, 1],
        greatest: 1,
    };
    assert!(rt; states(&[25_234_823_050], 36, 701, far));
    // One part as several is no list.
    let parted = [866, 562_949_953_421_314, 0, 5, 1064];
    assert!(rt; !accepts(&parted, 267, 3));
    Ok(())
}

// Documents 0 to 99,999 and 1,000,000, each once: two parts of documents, one of frequencies.
#[test]
fn several_parts_of_documents(rt: HostRuntime) -> Result<(), Fail> {
    let wanted = Wanted {
        run: 100_000,
        docs: &[1_000_000],
        sums: &[100_000],
        greatest: 1,
    };
    let mut words = [
        99_006_742_528,
        9_700_753_597_356_148_383,
        281_474_976_710_656,
        9_701_035_072_333_759_040,
        281_474_976_710_656,
        1_502_850,
        0,
    ];
    assert!(rt; states(&words, 385, 1_000_001, wanted));
    assert!(rt; !accepts(&words, 385, 1_000_000));
    assert!(rt; !accepts(&words, 384, 1_000_001));
    assert!(rt; !accepts(&words, 386, 1_000_001));
    let (_, others) = flips(&mut words, 385, 1_000_001, wanted);
    assert!(rt; others);
    Ok(())
}

// Documents 0 to 999 and 9,999, each once but the last 10,000 times: two parts in both sequences.
#[test]
fn several_parts_in_both(rt: HostRuntime) -> Result<(), Fail> {
    let wanted = Wanted {
        run: 1000,
        docs: &[9999],
        sums: &[10_999],
        greatest: 10_000,
    };
    let mut words = [
        367_378_618_099_200,
        281_474_976_710_656_999,
        0,
        281_756_451_687_376_655,
        0,
        6460,
        5,
        281_474_976_710_656_999,
        0,
        281_756_451_687_377_655,
        0,
        14_460,
    ];
    assert!(rt; states(&words, 768, 10_000, wanted));
    assert!(rt; !accepts(&words, 768, 9999));
    // A padding bit is set.
    words[0] ^= 1 << 63;
    assert!(rt; !accepts(&words, 768, 10_000));
    words[0] ^= 1 << 63;
    let (_, others) = flips(&mut words, 768, 10_000, wanted);
    assert!(rt; others);
    Ok(())
}
