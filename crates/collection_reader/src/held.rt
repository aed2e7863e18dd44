ghost use Rattle.std.specs.Prelude.{IsTrue};
ghost use Rattle.collection_reader.specs.OneFile.{LooksAhead, TakesNumber};

use crate::fault::{CollError, Rule};
use crate::position::Position;
use held_pieces::Held;
use io_traits::{Depot, Slot};

// Whether the file has a byte left.
pub(crate) fn has_byte<D: Depot>(
    held: &mut Held,
    slot: Slot,
    depot: &mut D,
) -> Result<bool, CollError>
    requires { IsTrue ((D.state depot.old).started slot) }
    ensures { LooksAhead slot held.old held.new (D.state depot.old) (D.state depot.new) result }
{
    match held.has_byte(slot, depot) {
        Ok(more) => Ok(more),
        Err(fail) => Err(CollError::of_call(slot, fail)),
    }
}

// The next number of the file, which stands at this position.
pub(crate) fn read_number<D: Depot>(
    held: &mut Held,
    at: Position,
    depot: &mut D,
) -> Result<u32, CollError>
    requires { IsTrue ((D.state depot.old).started at.file) }
    ensures { TakesNumber at held.old held.new (D.state depot.old) (D.state depot.new) result }
{
    match held.number(at.file, depot) {
        Ok(Some(number)) => Ok(number),
        Ok(None) => Err(at.breaks(Rule::C1)),
        Err(fail) => Err(CollError::of_call(at.file, fail)),
    }
}
