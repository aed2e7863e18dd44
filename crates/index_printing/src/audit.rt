ghost use Rattle.std.specs.Prelude.{◌≡◌, ◌+◌, ◌*◌, ◌<◌, ◌≤◌, [], ◌∷◌, length, string_bytes, ℕ, false, IfErr, IfOk};
ghost use Rattle.std.specs.List.{All};
ghost use Rattle.std.specs.List.Sorted.{IsStrictlyIncreasing};
ghost use Rattle.part_cost.specs.Formats.{numbers_of};
ghost use Rattle.part_cost.specs.Span.{cost_of_part};
ghost use Rattle.part_cost.specs.Partition.{IsCheapest, IsCheapestOfAll};
ghost use Rattle.part_cost.specs.StoredBits.{IsLeastStored, IsLeastStoredOfAll};
ghost use Rattle.partition_path.specs.Rests.{whole_cost};
ghost use Rattle.collection_model.specs.FormatNumbers.{format_three, part_charge};
ghost use Rattle.collection_model.specs.Collection.{list_of};
ghost use Rattle.index_file.specs.IndexView.{cut_list_at};
ghost use Rattle.command_model.specs.AuditText.{IsAuditLine, cut_sequence, longest_audited};
ghost use Rattle.io_traits.specs.SinkState.{SinkState};
ghost use Rattle.index_printing.specs.PrintAudit.{PrintsAudit, PrintsLines, IsAudited};

use cursor_api::DocCursor;
use index_file::Index;
use index_reading::read_list;
use io_traits::{IoFail, Sink, write_all_own};
use no_memory::NoMemory;
use part_cost::{Format, ListCost, Which, formats_have_room, least_stored, single_is_allowed};
use partition_path::{ExactCosts, exact_cost, exact_costs};
use pef_report::{audit_end, audit_line};
use postings::{doc_values, freq_sums, sequences_of_a_list_rise};
use std::alloc::Global;
use std::sync::ledger::Ledger;
use step_count::Steps;

// The most numbers of a sequence of which the least costs are found.
const LONGEST: u32 = 256;

// How many sequences have a line, and how many are too long for one.
#[derive(Clone, Copy)]
struct Tally {
    shown: u64,
    longer: u64,
}

// No sequence is counted yet.
const NONE: Tally = Tally {
    shown: 0,
    longer: 0,
};

/// Prints the audit of an index: of each sequence of 1 to 256 numbers, by term and documents before
/// frequencies, a line with what its partition in the file costs, the least cost of an allowed
/// partition and the least of all, and last how many sequences have a line and how many have more
/// numbers. Each line is given to out as one piece, once it is made.
pub fn print_audit<O: Sink, L: Ledger>(
    alloc: Global,
    index: &Index<'_>,
    out: &mut O,
    steps: &mut Steps<L>,
) -> Result<(), IoFail>
    ensures { PrintsAudit index.now (O.state out.old) (O.state out.new) steps.old steps.new result }
{
    index.stands_for_a_collection();
    let mut tally = NONE;
    for term in 0..index.walked_terms() {
        let more = audit_list(alloc, index, term, out, steps)?;
        tally = Tally {
            shown: tally.shown + more.shown,
            longer: tally.longer + more.longer,
        };
    }
    let end = audit_end(alloc, tally.shown, tally.longer).map_err(|_| IoFail::NoMemory)?;
    write_all_own(out, end.as_bytes())
}

// Prints the lines of the sequences of list t, where they have some, and tells how many these are.
fn audit_list<O: Sink, L: Ledger>(
    alloc: Global,
    index: &Index<'_>,
    term: u32,
    out: &mut O,
    steps: &mut Steps<L>,
) -> Result<Tally, IoFail>
    requires within { term < length index.now.collection.lists }
    ensures goes_on { (old : SinkState) (before shown longer : ℕ)
        → IsAudited index.now term old (O.state out.old) before steps.old shown longer
        → IfOk result (λ more. IsAudited index.now (term + 1) old (O.state out.new) before steps.new
        (shown + more.shown) (longer + more.longer)) }
    ensures stops { (old : SinkState) (before shown longer : ℕ)
        → IsAudited index.now term old (O.state out.old) before steps.old shown longer
        → IfErr result (λ fail. PrintsAudit index.now old (O.state out.new) before steps.new
        (Err fail)) }
{
    formats_have_room();
    single_is_allowed();
    least_stored();
    sequences_of_a_list_rise();
    index.stands_for_a_collection();
    let count = index.cursor(term).len();
    if count == 0 {
        return Ok(NONE);
    }
    if count > LONGEST {
        return Ok(Tally { longer: 2, ..NONE });
    }
    print_lines(alloc, index, term, out, steps)?;
    Ok(Tally { shown: 2, ..NONE })
}

// Prints the two lines of list t, which is not empty and not longer than what is audited.
fn print_lines<O: Sink, L: Ledger>(
    alloc: Global,
    index: &Index<'_>,
    term: u32,
    out: &mut O,
    steps: &mut Steps<L>,
) -> Result<(), IoFail>
    requires within { term < length index.now.collection.lists }
    requires short { length (list_of index.now.collection term) ≤ longest_audited }
    ensures { let c = cut_list_at index.now term in
        PrintsLines (numbers_of index.now.format)
        (cut_sequence term Which.Docs c ∷ cut_sequence term Which.Freqs c ∷ []) (O.state out.old)
        (O.state out.new) steps.old steps.new result }
{
    formats_have_room();
    single_is_allowed();
    least_stored();
    sequences_of_a_list_rise();
    index.stands_for_a_collection();
    let (docs, sums) = sequences_of(alloc, index, term).map_err(|_| IoFail::NoMemory)?;
    let first = ListSequence {
        term,
        which: Which::Docs,
        values: &docs,
    };
    let second = ListSequence {
        term,
        which: Which::Freqs,
        values: &sums,
    };
    print_line(alloc, index, first, out, steps)?;
    print_line(alloc, index, second, out, steps)
}

// A sequence of a list of an index, and its values.
#[derive(Clone, Copy)]
struct ListSequence<'a> {
    term: u32,
    which: Which,
    values: &'a [u64],
}

// The documents and the sums of the frequencies of list t.
fn sequences_of(
    alloc: Global,
    index: &Index<'_>,
    term: u32,
) -> Result<(Vec<u64>, Vec<u64>), NoMemory>
    requires within { term < length index.now.collection.lists }
    ensures docs { IfOk result (λ both. both.0.items
        ≡ (cut_sequence term Which.Docs (cut_list_at index.now term)).values) }
    ensures sums { IfOk result (λ both. both.1.items
        ≡ (cut_sequence term Which.Freqs (cut_list_at index.now term)).values) }
{
    formats_have_room();
    index.stands_for_a_collection();
    let mut docs = Vec::new(alloc);
    let mut freqs = Vec::new(alloc);
    read_list(&mut index.cursor(term), &mut docs, &mut freqs)?;
    Ok((doc_values(alloc, &docs)?, freq_sums(alloc, &freqs)?))
}

// Prints the line of a sequence.
fn print_line<O: Sink, L: Ledger>(
    alloc: Global,
    index: &Index<'_>,
    sequence: ListSequence<'_>,
    out: &mut O,
    steps: &mut Steps<L>,
) -> Result<(), IoFail>
    requires within { sequence.term < length index.now.collection.lists }
    requires values { sequence.values.now ≡ (cut_sequence sequence.term sequence.which
        (cut_list_at index.now sequence.term)).values }
    requires short { length sequence.values.now ≤ longest_audited }
    ensures { PrintsLines (numbers_of index.now.format)
        (cut_sequence sequence.entry.term sequence.entry.which
        (cut_list_at index.now sequence.entry.term) ∷ []) (O.state out.old) (O.state out.new)
        steps.old steps.new result }
{
    formats_have_room();
    single_is_allowed();
    least_stored();
    sequences_of_a_list_rise();
    index.stands_for_a_collection();
    let line = line_of(alloc, index, sequence, steps).map_err(|_| IoFail::NoMemory)?;
    write_all_own(out, line.as_bytes())
}

// The line of a sequence.
fn line_of<L: Ledger>(
    alloc: Global,
    index: &Index<'_>,
    sequence: ListSequence<'_>,
    steps: &mut Steps<L>,
) -> Result<String, NoMemory>
    requires within { sequence.term < length index.now.collection.lists }
    requires values { sequence.values.now ≡ (cut_sequence sequence.term sequence.which
        (cut_list_at index.now sequence.term)).values }
    requires short { length sequence.values.now ≤ longest_audited }
    ensures line { IfOk result (λ line. IsAuditLine (numbers_of index.now.format)
        (cut_sequence sequence.entry.term sequence.entry.which
        (cut_list_at index.now sequence.entry.term)) (string_bytes line)) }
    ensures counted { IfOk result (λ line. steps.old + 2 * length sequence.entry.values.now
        ≤ steps.new) }
    ensures bounded { steps.new ≤ steps.old + length sequence.entry.values.now
        * (length sequence.entry.values.now + 1) }
{
    formats_have_room();
    sequences_of_a_list_rise();
    index.stands_for_a_collection();
    let ListSequence {
        term,
        which,
        values,
    } = sequence;
    let format = index.format();
    let costs = ListCost::new(values, format);
    let allowed = exact_cost(alloc, &costs, true, steps)?;
    let any = exact_costs(alloc, &costs, false, steps)?;
    let (allowed, any) = fewest_bits(values, format, allowed, any);
    audit_line(
        alloc,
        term,
        which,
        index.seq_cost(term, which),
        allowed,
        any,
    )
}

// The fewest bits that a sequence may take in a file of a format, and the fewest of any of its
// partitions, by the least costs of these and what it costs as one part.
fn fewest_bits(values: &[u64], format: Format, allowed: u64, any: ExactCosts) -> (u64, u64)
    requires least_allowed { IsCheapest (numbers_of format).limit
        (cost_of_part (part_charge (numbers_of format)) values.now) (length values.now) allowed }
    requires least_of_all { IsCheapestOfAll
        (cost_of_part (part_charge (numbers_of format)) values.now) (length values.now) any.least }
    requires whole { any.whole ≡ whole_cost false (numbers_of format).limit
        (cost_of_part (part_charge (numbers_of format)) values.now) (length values.now) }
    ensures least_allowed { IsLeastStored (numbers_of format) values.now result.0 }
    ensures least_of_all { IsLeastStoredOfAll (numbers_of format) values.now result.1 }
{
    match format {
        Format::One => (allowed, any.least),
        Format::Two => (allowed, any.least),
        Format::Three => fewest_packed(values, allowed, any),
    }
}

// The fewest bits that a sequence takes in a packed file: of one value none, of more what the one
// part costs without its charge, where that is less.
fn fewest_packed(values: &[u64], allowed: u64, any: ExactCosts) -> (u64, u64)
    requires least_allowed { IsCheapest format_three.limit
        (cost_of_part (part_charge format_three) values.now) (length values.now) allowed }
    requires least_of_all { IsCheapestOfAll
        (cost_of_part (part_charge format_three) values.now) (length values.now) any.least }
    requires whole { any.whole ≡ whole_cost false format_three.limit
        (cost_of_part (part_charge format_three) values.now) (length values.now) }
    ensures least_allowed { IsLeastStored format_three values.now result.0 }
    ensures least_of_all { IsLeastStoredOfAll format_three values.now result.1 }
{
    least_stored();
    let Some(cost) = any.whole else {
        return (allowed, any.least);
    };
    if values.len() == 1 {
        return (0, 0);
    }
    let whole = cost - Format::Three.charge();
    (whole.min(allowed), whole.min(any.least))
}
