// Words as bytes.
use crate::words::ONE_LIST;
use index_file::{WordsError, read_words, spell_words, words_and_bytes_undo_each_other};
use std::test::Fail;

#[test]
fn spells_and_reads_words(rt: HostRuntime) -> Result<(), Fail> {
    let bytes = spell_words(rt.alloc(), ONE_LIST).expect(&rt, "memory");
    assert_eq!(rt; bytes.len(), 144);
    assert_eq!(rt; &bytes[..8], b"PEFINDEX".as_slice());
    let words = read_words(rt.alloc(), &bytes).expect(&rt, "words");
    assert_eq!(rt; words.as_slice(), ONE_LIST);
    words_and_bytes_undo_each_other();
    Ok(())
}

#[test]
fn nine_bytes_are_ragged(rt: HostRuntime) -> Result<(), Fail> {
    let refused = read_words(rt.alloc(), &[0; 9]).err();
    assert_eq!(rt; refused, Some(WordsError::Ragged));
    Ok(())
}
