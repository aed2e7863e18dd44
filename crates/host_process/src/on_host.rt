ghost use Rattle.std.specs.Prelude.{◌≡◌};
ghost use Rattle.outcomes.specs.Outside.{outside};
ghost use Rattle.host_process.specs.OnHost.{IsFresh, ProcessesAnew};

use crate::processing::process;
use io_traits::{Depot, Sink, Source};
use pef_top::Devices;
use std::env::Args;
use std::io;
use std::io::{Read, Write};
use std::process::ExitCode;
use std::rt::Files;
use system_io::{StdDepot, StdSink, StdSource};

/// Does what `process` does, over the files of the system and these three streams of it: it makes
/// the devices itself.
pub fn run_process<R: Files + AllocGlobal + Drop, I: Read + Drop, O: Write + Drop, E: Write + Drop>(
    rt: R,
    given: io::Result<Args>,
    stdin: I,
    stdout: O,
    stderr: E,
) -> ExitCode
    ensures { ProcessesAnew
        (λ on err. (on.input.reader ≡ stdin) × (on.out.writer ≡ stdout) × (err.writer ≡ stderr))
        (λ on err costs. outside (⟦<StdDepot<R> as Depot>⟧.state on.depot)
        (⟦<StdSource<I> as Source>⟧.state on.input) (⟦<StdSink<O> as Sink>⟧.state on.out)
        (⟦<StdSink<E> as Sink>⟧.state err) costs)
        given result }
{
    let alloc = rt.alloc();
    let mut on = Devices {
        depot: StdDepot::new(rt),
        input: StdSource::new(stdin),
        out: StdSink::new(stdout),
    };
    let mut err = StdSink::new(stderr);
    process(alloc, given, &mut on, &mut err)
}
