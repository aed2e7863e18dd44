ghost use Rattle.std.specs.Prelude.{◌≡◌, ℕ, ◌<◌, IsOk, Some};
ghost use Rattle.pef_top.specs.Names.{SinkState, command_of, texts, outside};
ghost use Rattle.command_line.specs.Asked.{asked};
ghost use Rattle.command_ends.specs.Lent.{devices, lent, LendTheSame};
ghost use Rattle.pef_top.specs.Uncalled.{Accepts, LeavesUncalled};
ghost use Rattle.pef_top.specs.Commands.{Performs};
ghost use Rattle.pef_top.specs.Starts.{Starts};
ghost use Rattle.pef_top.specs.Runs.{Runs};
ghost use Rattle.pef_top.specs.Private.Reports.{Reports};
ghost use Rattle.command_ends.specs.Steps.Leaves.{Leaves};

use command_ends::Devices;
use command_line::{Command, parse_words};
use commands::answer::answer;
use commands::audit::audit;
use commands::blocks::blocks;
use commands::bquery::bquery;
use commands::build::{NewIndex, build};
use commands::export::export;
use commands::generate::{GeneratedCollection, generate};
use commands::inspect::inspect;
use commands::iquery::iquery;
use commands::joining::segments;
use commands::merge::merge;
use commands::migrate::{Rewrite, migrate};
use commands::query::query;
use commands::remapping::remap;
use io_traits::{Depot, Sink, Source};
use outcomes::{Status, Stop, write_line};
use std::alloc::Global;
use std::marker::Brand;
use std::sync::ledger::{Blank, Ledger};
use step_count::Steps;

/// Runs the command of the words, the program's name first.
///
/// `build BASE INDEX [--format FORMAT]` reads the collection whose files are BASE.docs, BASE.freqs
/// and BASE.sizes and writes its index as the file INDEX, in format 2 where none is given. `query
/// INDEX [--plan PLAN]` checks that file whole and answers the lines of the input on out, each
/// reply with its newline as one piece; `top` is answered by the plan `exhaustive`, `wand` or
/// `maxscore`, the first where none is given, and no reply depends on it. `answer BASE [--plan
/// PLAN]` answers the lines from an index of format 2 that it builds and does not write. `inspect
/// INDEX` checks that file whole and prints one line that sums it up. `generate SEED N T` builds
/// the index of a generated collection of N documents and T lists, which it does not write, and
/// prints what it counts and what it replies. `migrate OLD NEW` checks the file OLD whole and
/// writes the index of its collection, in format 2 and in new partitions, as the file NEW. `audit
/// INDEX` checks that file whole and prints, for each sequence of at most 256 numbers, what its
/// partition costs and the least costs of allowed partitions and of all. `blocks INDEX SIDE` checks
/// the file INDEX whole and writes the side file of its blocks as the file SIDE. `bquery INDEX
/// SIDE` checks the file INDEX whole, and the file SIDE as its side file, and answers the lines of
/// the input as `query` does, `top` by block-max WAND. `remap BASE MAP NEW` reads a collection and,
/// from the file MAP, an order of its documents, and writes the files NEW.docs, NEW.freqs and
/// NEW.sizes of its image. `segments INDEX.. [--plan PLAN]` checks each of 1 to 64 files whole, and
/// answers the lines from the collection to which their indexes are joined. `pack BASE NEW` is
/// `build` with a packed file in place of a plain one, and `repack OLD NEW` is `migrate` so.
/// `export INDEX BASE` checks the file INDEX whole and writes the files BASE.docs, BASE.freqs and
/// BASE.sizes of its collection. `iquery INDEX` answers as `query` does, `top` by the greatest
/// frequencies of short runs of documents, which it makes behind the check of the file. `merge
/// INDEX.. NEW` checks each of 1 to 64 files whole, and writes the packed index of the collection
/// to which their indexes are joined as the file NEW. Every status but `Done` has its line on err,
/// which takes no memory; an err that fails changes no status.
pub fn run<D: Depot, I: Source, O: Sink, E: Sink, L: Ledger>(
    alloc: Global,
    words: &[String],
    depot: &mut D,
    input: &mut I,
    out: &mut O,
    err: &mut E,
    steps: &mut Steps<L>,
) -> Status
    ensures { Runs (command_of (texts words.now))
        (outside (D.state depot.old) (I.state input.old) (O.state out.old) (E.state err.old)
        steps.old)
        (outside (D.state depot.new) (I.state input.new) (O.state out.new) (E.state err.new)
        steps.new)
        (devices depot.old input.old out.old) (devices depot.new input.new out.new)
        err.old err.new result }
{
    let mut on = Devices { depot, input, out };
    run_on(alloc, words, &mut on, err, steps)
}

/// Runs the command of the words as `run` does, for a caller that counts nothing.
pub fn run_uncounted<D: Depot, I: Source, O: Sink, E: Sink>(
    alloc: Global,
    words: &[String],
    on: &mut Devices<D, I, O>,
    err: &mut E,
) -> Status
    ensures { (counted : ℕ) × Runs (command_of (texts words.now))
        (outside (D.state on.old.depot) (I.state on.old.input) (O.state on.old.out)
        (E.state err.old) 0)
        (outside (D.state on.new.depot) (I.state on.new.input) (O.state on.new.out)
        (E.state err.new) counted)
        on.old on.new err.old err.new result }
{
    run_counted::<_, _, _, _, Brand>(alloc, words, on, err, Blank::new(1))
}

// Runs the command of the words with a counter of its own.
fn run_counted<D: Depot, I: Source, O: Sink, E: Sink, L: Ledger>(
    alloc: Global,
    words: &[String],
    on: &mut Devices<D, I, O>,
    err: &mut E,
    blank: Blank,
) -> Status
    requires name { blank.name ≡ L.name }
    requires parts { blank.parts ≡ L.parts }
    requires some { 0 < L.parts }
    ensures { (counted : ℕ) × Runs (command_of (texts words.now))
        (outside (D.state on.old.depot) (I.state on.old.input) (O.state on.old.out)
        (E.state err.old) 0)
        (outside (D.state on.new.depot) (I.state on.new.input) (O.state on.new.out)
        (E.state err.new) counted)
        on.old on.new err.old err.new result }
{
    let mut steps = Steps::<L>::new(blank);
    run(
        alloc,
        words,
        &mut on.depot,
        &mut on.input,
        &mut on.out,
        err,
        &mut steps,
    )
}

// Runs the command of the words on devices that are lent.
fn run_on<D: Depot, I: Source, O: Sink, E: Sink, L: Ledger>(
    alloc: Global,
    words: &[String],
    on: &mut Devices<&mut D, &mut I, &mut O>,
    err: &mut E,
    steps: &mut Steps<L>,
) -> Status
    ensures runs { Runs (command_of (texts words.now))
        (outside (D.state on.old.depot.now) (I.state on.old.input.now)
        (O.state on.old.out.now) (E.state err.old) steps.old)
        (outside (D.state on.new.depot.now) (I.state on.new.input.now)
        (O.state on.new.out.now) (E.state err.new) steps.new)
        (lent on.old) (lent on.new) err.old err.new result }
    ensures same { LendTheSame on.old on.new }
{
    let ending = perform(alloc, words, on, steps);
    report(err, ending)
}

// Carries out the command of the words.
fn perform<D: Depot, I: Source, O: Sink, L: Ledger>(
    alloc: Global,
    words: &[String],
    on: &mut Devices<&mut D, &mut I, &mut O>,
    steps: &mut Steps<L>,
) -> Result<(), Stop>
    ensures leaves { let command = command_of (texts words.now) in (e e' : SinkState) →
        Leaves (Performs command) (Starts command)
        (outside (D.state on.old.depot.now) (I.state on.old.input.now)
        (O.state on.old.out.now) e steps.old)
        (outside (D.state on.new.depot.now) (I.state on.new.input.now)
        (O.state on.new.out.now) e' steps.new)
        result }
    ensures uncalled { let command = command_of (texts words.now) in
        LeavesUncalled command (Accepts command (D.state on.old.depot.now)) result
        (lent on.old) (lent on.new) }
    ensures same { LendTheSame on.old on.new }
{
    let command = parse_words(alloc, words)?;
    carry_out(alloc, command, on, steps)
}

// Carries out a command.
fn carry_out<D: Depot, I: Source, O: Sink, L: Ledger>(
    alloc: Global,
    command: Command<'_>,
    on: &mut Devices<&mut D, &mut I, &mut O>,
    steps: &mut Steps<L>,
) -> Result<(), Stop>
    ensures leaves { let command = Some (asked command.entry) in (e e' : SinkState) →
        Leaves (Performs command) (Starts command)
        (outside (D.state on.old.depot.now) (I.state on.old.input.now)
        (O.state on.old.out.now) e steps.old)
        (outside (D.state on.new.depot.now) (I.state on.new.input.now)
        (O.state on.new.out.now) e' steps.new)
        result }
    ensures uncalled { let command = Some (asked command.entry) in
        LeavesUncalled command (Accepts command (D.state on.old.depot.now)) result
        (lent on.old) (lent on.new) }
    ensures same { LendTheSame on.old on.new }
{
    match command {
        Command::Build {
            base,
            index,
            format,
        } => {
            let index = NewIndex {
                name: index,
                format,
            };
            build(alloc, base, index, on.depot, steps)
        }
        Command::Query { index, plan } => query(alloc, index, plan, on),
        Command::Answer { base, plan } => answer(alloc, base, plan, on, steps),
        Command::Inspect { index } => inspect(alloc, index, on.depot, on.out),
        Command::Generate {
            seed,
            documents,
            terms,
        } => {
            let collection = GeneratedCollection {
                seed,
                documents,
                terms,
            };
            generate(alloc, collection, on.out, steps)
        }
        Command::Migrate { from, to, kind } => {
            migrate(alloc, Rewrite { from, to, kind }, on.depot, steps)
        },
        Command::Audit { index } => audit(alloc, index, on.depot, on.out, steps),
        Command::Blocks { index, side } => blocks(alloc, index, side, on.depot),
        Command::BlockQuery { index, side } => bquery(alloc, index, side, on),
        Command::Remap { base, map, to } => remap(alloc, base, map, to, on.depot),
        Command::Segments { indexes, plan } => segments(alloc, indexes, plan, on),
        Command::Export { index, base } => export(alloc, index, base, on.depot),
        Command::IntervalQuery { index } => iquery(alloc, index, on),
        Command::Merge { indexes, to } => merge(alloc, indexes, to, on.depot, steps),
    }
}

// The status of an ending, whose line is written on err. An err that fails changes no status.
fn report<E: Sink>(err: &mut E, ending: Result<(), Stop>) -> Status
    ensures ending { Reports (E.state err.old) (E.state err.new) ending result }
    ensures done { IsOk ending → err.new ≡ err.old }
{
    match ending {
        Ok(()) => Status::Done,
        Err(stop) => {
            let _ = write_line(err, stop);
            stop.status()
        }
    }
}
