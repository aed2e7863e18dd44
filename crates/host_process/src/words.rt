ghost use Rattle.std.specs.Prelude.{◌≡◌, IfOk};
ghost use Rattle.std.specs.Vec.Iter.{into_iter_items};
ghost use Rattle.host_process.specs.Words.{TakesWords};

use no_memory::NoMemory;
use std::alloc::{AllocError, Global};
use std::env::Args;
use std::io;
use std::io::ErrorKind;

// The words of the command line, the program's name first, from what the system gave of them. There
// are none where one is no UTF-8, which is refused as usage.
pub(crate) fn words_of(alloc: Global, given: io::Result<Args>) -> Result<Vec<String>, NoMemory>
    ensures { TakesWords given result }
{
    match given {
        Ok(words) => Ok(in_order(alloc, words)?),
        Err(e) if e.kind() == ErrorKind::OutOfMemory => Err(NoMemory),
        Err(_) => Ok(Vec::new(alloc)),
    }
}

// All of the words, in their order.
fn in_order(alloc: Global, words: Args) -> Result<Vec<String>, AllocError>
    ensures { IfOk result (λ taken. taken.items ≡ into_iter_items words) }
{
    let mut taken = Vec::new(alloc);
    for word in words {
        taken.push(word)?;
    }
    Ok(taken)
}
