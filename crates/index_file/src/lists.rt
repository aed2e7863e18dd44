ghost use Rattle.std.specs.Prelude.{◌≡◌, ℕ, ◌≤◌, ◌<◌, ◌+◌, ◌*◌, ◌/◌, ◌%◌, ◌^◌, ◌==◌, ◌||◌, not, nat_lt, true, List, length, IfOk, IfErr};
ghost use Rattle.collection_model.specs.FormatNumbers.{entry_words};
ghost use Rattle.part_cost.specs.declared.formats.Format.{Format};
ghost use Rattle.part_cost.specs.Formats.{numbers_of};
ghost use Rattle.two_level.specs.SequenceFault.{parts_fit};
ghost use Rattle.index_file.specs.FileWords.{CutList};
ghost use Rattle.index_file.specs.FirstBroken.{stated_terms, stated_sizes, stated_length, stated_freq_parts, cannot_begin, IsFreqsFault, IsTermFault};
ghost use Rattle.index_file.specs.ListAt.{HasFrame, StatesFrame, StatesList, StandsAt, FreqsStandAt, word_after};

use crate::fault::OpenFault;
use crate::frame::{Frame, LIST_WORDS, directory_of};
use crate::laws::sequence_laws;
use part_cost::Format;
use postings::sequences_are_a_list;
use two_level::{Check, SeqFault, SeqView, parts_fit};

// A half of a word counts so many numbers.
pub(crate) const HALF: u64 = 1 << 32;

// The directory words of a list.
#[derive(Clone, Copy)]
pub(crate) struct ListEntry {
    // The first words of its two sequences.
    pub(crate) docs: u64,
    pub(crate) sums: u64,
    pub(crate) len: u32,
    pub(crate) doc_parts: u32,
    pub(crate) sum_parts: u32,
    // The greatest frequency.
    pub(crate) greatest: u32,
}

// The low and the high half of a word.
pub(crate) fn halves(word: u64) -> (u32, u32)
    ensures low { result.0 ≡ word % 2 ^ 32 }
    ensures high { result.1 ≡ word / 2 ^ 32 }
{
    ((word % HALF) as u32, (word / HALF) as u32)
}

// The directory words of list t.
pub(crate) fn list_entry(words: &[u64], frame: Frame, t: u32) -> ListEntry
    requires words { length words.now < 2 ^ 57 }
    requires frame { (format : Format) × HasFrame (numbers_of format) words.now }
    requires numbers { StatesFrame words.now frame }
    requires within { t < stated_terms words.now }
    ensures { StatesList words.now t result }
{
    let at = (directory_of(frame) + LIST_WORDS * u64::from(t)) as usize;
    let (len, doc_parts) = halves(words[at + 2]);
    let (sum_parts, greatest) = halves(words[at + 3]);
    ListEntry {
        docs: words[at],
        sums: words[at + 1],
        len,
        doc_parts,
        sum_parts,
        greatest,
    }
}

// The fault of list t at a part behind so many others.
fn fault_in(t: u32, before: u32, fault: SeqFault) -> OpenFault
    ensures check { result.check ≡ fault.check }
    ensures term { result.term ≡ t }
    ensures part { result.part ≡ before + fault.part }
{
    OpenFault {
        check: fault.check,
        term: t,
        part: u64::from(before) + u64::from(fault.part),
    }
}

// Whether a list can't begin at word p.
fn cannot_begin(list: ListEntry, p: u64, frame: Frame, format: Format) -> bool
    requires small { p < 2 ^ 57 }
    ensures { result ≡ cannot_begin (numbers_of format) list.docs p frame.documents list.len
        list.doc_parts list.sum_parts frame.sizes }
{
    list.docs != p
        || frame.documents < u64::from(list.len)
        || !parts_fit(list.len, list.doc_parts)
        || !parts_fit(list.len, list.sum_parts)
        || frame.sizes < p + format.entry_words() * u64::from(list.doc_parts)
}

// Whether the frequencies of a list can't begin at word p.
fn sums_cannot_begin(list: ListEntry, p: u64, frame: Frame, format: Format) -> bool
    requires small { p < 2 ^ 57 }
    ensures { result ≡ (not (list.sums == p) || nat_lt frame.sizes
        (p + entry_words (numbers_of format) * list.sum_parts)) }
{
    list.sums != p || frame.sizes < p + format.entry_words() * u64::from(list.sum_parts)
}

// List t, of which something is to begin at word p.
#[derive(Clone, Copy)]
struct ListPlace {
    t: u32,
    p: u64,
}

// Looks for the first check that breaks in the frequencies of a list, which are to begin at this
// place, and answers the word behind them.
fn check_sums(
    words: &[u64],
    frame: Frame,
    list: ListEntry,
    at: ListPlace,
    format: Format,
) -> Result<u64, OpenFault>
    requires words { length words.now < 2 ^ 57 }
    requires frame { HasFrame (numbers_of format) words.now }
    requires numbers { StatesFrame words.now frame }
    requires entry { StatesList words.now at.t list }
    requires within { at.t < stated_terms words.now }
    requires before { at.p ≤ stated_sizes words.now }
    requires fit { parts_fit (stated_length words.now at.t) (stated_freq_parts words.now at.t)
        ≡ true }
    ensures ok { IfOk result (λ behind. (xs : List ℕ) × (ends : List ℕ) × (used : ℕ)
        × FreqsStandAt (numbers_of format) words.now at.t at.p xs ends used
        × (behind ≡ at.p + used)) }
    ensures first { IfErr result (λ f. IsFreqsFault (numbers_of format) words.now at.t at.p f) }
{
    sequence_laws();
    let ListPlace { t, p } = at;
    if sums_cannot_begin(list, p, frame, format) {
        return Err(OpenFault {
            check: Check::K6,
            term: t,
            part: u64::from(list.doc_parts),
        });
    }
    let rest = &words[p as usize..frame.sizes as usize];
    let greatest = u64::from(list.greatest);
    match SeqView::check_steps(rest, list.sum_parts, list.len, format.most_sum(), format) {
        Ok(sums) if sums.greatest == greatest => Ok(p + sums.used),
        Ok(_) => Err(OpenFault {
            check: Check::K10,
            term: t,
            part: 0,
        }),
        Err(fault) => Err(fault_in(t, list.doc_parts, fault)),
    }
}

// Looks for the first check that breaks for list t, whose sequences are to begin at word p, and
// answers where those of the next list begin.
pub(crate) fn check_list(
    words: &[u64],
    frame: Frame,
    t: u32,
    p: u64,
    format: Format,
) -> Result<u64, OpenFault>
    requires words { length words.now < 2 ^ 57 }
    requires frame { HasFrame (numbers_of format) words.now }
    requires numbers { StatesFrame words.now frame }
    requires within { t < stated_terms words.now }
    requires before { p ≤ stated_sizes words.now }
    ensures ok { IfOk result (λ next. (c : CutList) × StandsAt (numbers_of format) words.now t p c
        × (next ≡ word_after (numbers_of format) p c)) }
    ensures first { IfErr result (λ f. IsTermFault (numbers_of format) words.now t p f) }
{
    sequence_laws();
    sequences_are_a_list();
    let list = list_entry(words, frame, t);
    if cannot_begin(list, p, frame, format) {
        return Err(OpenFault {
            check: Check::K6,
            term: t,
            part: 0,
        });
    }
    let rest = &words[p as usize..frame.sizes as usize];
    match SeqView::check_counting(rest, list.doc_parts, list.len, frame.documents, format) {
        Ok(docs) => {
            let at = ListPlace {
                t,
                p: p + docs.used,
            };
            check_sums(words, frame, list, at, format)
        }
        Err(fault) => Err(fault_in(t, 0, fault)),
    }
}
