ghost use Rattle.std.specs.Prelude.{◌≡◌, IfOk, string_bytes};
ghost use Rattle.command_model.specs.SummaryLine.{counts_of, summary_line};
ghost use Rattle.index_printing.specs.PrintLine.{PrintsLine};

use index_file::Index;
use io_traits::{IoFail, Sink, write_all_own};
use no_memory::NoMemory;
use pef_report::{Counts, summary};
use std::alloc::Global;

/// Prints the line that sums an opened index up, which is given to out as one piece: the object of
/// its counts as JSON without spaces, and a newline. Out is not called before the whole line is
/// made.
pub fn print_summary<O: Sink>(alloc: Global, index: &Index<'_>, out: &mut O) -> Result<(), IoFail>
    ensures { PrintsLine (summary_line index.now) (O.state out.old) (O.state out.new) result }
{
    let line = summary_line(alloc, index).map_err(|_| IoFail::NoMemory)?;
    write_all_own(out, line.as_bytes())
}

// The line that sums an opened index up, with its newline.
fn summary_line(alloc: Global, index: &Index<'_>) -> Result<String, NoMemory>
    ensures { IfOk result (λ line. string_bytes line ≡ summary_line index.now) }
{
    let value = summary(alloc, &counts_of(index))?;
    let mut line = value.to_string(alloc)?;
    line.push('\n')?;
    Ok(line)
}

// What an opened index is summed up by.
fn counts_of(index: &Index<'_>) -> Counts
    ensures { result ≡ counts_of index.now }
{
    let parts = index.part_counts();
    Counts {
        bitmap_parts: parts.bitmap_parts,
        documents: u64::from(index.documents()),
        ef_parts: parts.ef_parts,
        ones_parts: parts.ones_parts,
        payload_bits: parts.payload_bits,
        postings: index.postings(),
        size_total: index.size_total(),
        terms: u64::from(index.terms()),
        version: index.format().version(),
        words: index.word_count(),
    }
}
