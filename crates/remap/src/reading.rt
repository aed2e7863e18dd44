ghost use Rattle.std.specs.Prelude.{◌≡◌, ◌<◌, ◌^◌, [], IsTrue};
ghost use Rattle.io_traits.specs.declared.fail.Slot.TheVariants.{Map};
ghost use Rattle.remap.specs.OneSequence.{ReadsIds, ReadsLength, ReadsNumber, ids_of};
ghost use Rattle.remap.specs.ReadMap.{ReadsMap};

use crate::fault::{MapError, MapRule};
use crate::permutation::Permutation;
use held_pieces::Held;
use io_traits::{Depot, Slot};
use std::alloc::Global;

/// Reads the new ids of `n` documents from the file under a name, in pieces of at most 8,192 bytes,
/// to its end.
///
/// `Broken` names the first rule that breaks, with its place; `Read` comes where the start or a
/// read of the slot of the map failed; `NoMemory` where memory was refused, by this function or by
/// the depot.
pub fn read_map<D: Depot>(
    alloc: Global,
    name: &str,
    n: u32,
    depot: &mut D,
) -> Result<Permutation, MapError>
    ensures { ReadsMap name.now n (D.state depot.old) (D.state depot.new) result }
{
    depot.start(Slot::Map, name)?;
    let mut held = Held::new(alloc)?;
    let ids = read_ids(alloc, n, &mut held, depot)?;
    Ok(Permutation::new(ids))
}

// Reads the length and the ids of `n` documents, to the end of the map.
fn read_ids<D: Depot>(
    alloc: Global,
    n: u32,
    held: &mut Held,
    depot: &mut D,
) -> Result<Vec<u32>, MapError>
    requires { IsTrue ((D.state depot.old).started Map) }
    ensures { ReadsIds n held.old held.new (D.state depot.old) (D.state depot.new) (ids_of result) }
{
    read_length(n, held, depot)?;
    let mut seen = vec![in alloc; false; n as usize]?;
    let mut ids = Vec::new(alloc);
    for place in 0..n {
        let id = read_number(place, held, depot)?;
        if id >= n {
            return Err(MapError::broken(MapRule::M3, place));
        }
        if seen[id as usize] {
            return Err(MapError::broken(MapRule::M4, place));
        }
        seen[id as usize] = true;
        ids.push(id)?;
    }
    if held.has_byte(Slot::Map, depot)? {
        return Err(MapError::broken(MapRule::M5, n));
    }
    Ok(ids)
}

// Reads the length, which has to be `n`.
fn read_length<D: Depot>(n: u32, held: &mut Held, depot: &mut D) -> Result<(), MapError>
    requires { IsTrue ((D.state depot.old).started Map) }
    ensures { ReadsLength n held.old held.new (D.state depot.old) (D.state depot.new) result }
{
    if read_number(0, held, depot)? != n {
        return Err(MapError::broken(MapRule::M2, 0));
    }
    Ok(())
}

// Reads the next number, before which so many ids were read.
fn read_number<D: Depot>(place: u32, held: &mut Held, depot: &mut D) -> Result<u32, MapError>
    requires { IsTrue ((D.state depot.old).started Map) }
    ensures { ReadsNumber place held.old held.new (D.state depot.old) (D.state depot.new) result }
{
    match held.number(Slot::Map, depot)? {
        Some(number) => Ok(number),
        None => Err(MapError::broken(MapRule::M1, place)),
    }
}
