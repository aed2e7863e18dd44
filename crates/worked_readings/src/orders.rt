// Orders of documents, and collections that are moved by them.
ghost use Rattle.std.specs.Prelude.{◌≡◌, [], ◌∷◌, length, IfOk};
ghost use Rattle.collection_model.specs.Collection.{WellFormed};
ghost use Rattle.collection_model.specs.FormatNumbers.{format_two};

use crate::numbers::bytes;
use collection_reader::{Collection, read_collection};
use memory_io::SteadyDepot;
use no_memory::NoMemory;
use part_cost::Format;
use remap::{
    MapError, MapFault, MapRule, Permutation, apply, image_is_well_formed, read_map, spell_docs,
    spell_freqs, spell_sizes,
};
use std::alloc::{AllocError, Global};
use std::test::Fail;

// The bytes of three files: of documents, of frequencies and of sizes.
type Files = (Vec<u8>, Vec<u8>, Vec<u8>);

// Three documents of sizes 4, 0 and 7, and two lists: document 0 once and document 2 five times,
// and document 1 three times and document 2 four times.
fn depot(alloc: Global) -> Result<SteadyDepot, Fail> {
    let mut files = Vec::new(alloc);
    for (name, numbers) in [
        ("small.docs", [1, 3, 2, 0, 2, 2, 1, 2].as_slice()),
        ("small.freqs", &[2, 1, 5, 2, 3, 4]),
        ("small.sizes", &[3, 4, 0, 7]),
    ] {
        files.push((String::from_str(alloc, name)?, bytes(alloc, numbers)?))?;
    }
    Ok(SteadyDepot::new(alloc, files, 8_192)?)
}

// The order in which documents 0, 1 and 2 have the new ids 2, 0 and 1.
fn order(alloc: Global) -> Result<Permutation, AllocError>
    ensures { IfOk result (λ order. order ≡ 2 ∷ 0 ∷ 1 ∷ []) }
{
    Ok(Permutation::new([2, 0, 1].to_vec(alloc)?))
}

// The files of the image of a collection.
fn image_files(
    alloc: Global,
    collection: &Collection,
    order: &Permutation,
) -> Result<Files, NoMemory>
    requires well_formed { WellFormed format_two collection.now }
    requires each { length order.now ≡ collection.now.documents }
{
    let image = apply(alloc, collection, order)?;
    order.gives_new_ids();
    image_is_well_formed();
    let docs = spell_docs(alloc, &image)?;
    let freqs = spell_freqs(alloc, &image)?;
    let sizes = spell_sizes(alloc, &image)?;
    Ok((docs, freqs, sizes))
}

// The files of the image of a collection in a depot, which has three documents.
fn moved(alloc: Global, depot: &mut SteadyDepot) -> Result<Option<Files>, Fail> {
    let collection = read_collection(alloc, "small", depot, Format::Two)?;
    if collection.documents != 3 {
        return Ok(None);
    }
    Ok(Some(image_files(alloc, &collection, &order(alloc)?)?))
}

#[test]
fn small_collections_are_moved(rt: HostRuntime) -> Result<(), Fail> {
    let alloc = rt.alloc();
    let files = moved(alloc, &mut depot(alloc)?)?;
    let (docs, freqs, sizes) = files.expect(&rt, "three documents");
    for (file, numbers) in [
        (&docs, [1, 3, 2, 1, 2, 2, 0, 1].as_slice()),
        (&freqs, &[2, 5, 1, 2, 3, 4]),
        (&sizes, &[3, 0, 7, 4]),
    ] {
        assert_eq!(rt; file.as_slice(), bytes(alloc, numbers)?.as_slice());
    }
    Ok(())
}

#[test]
fn orders_are_undone(rt: HostRuntime) -> Result<(), Fail> {
    let alloc = rt.alloc();
    let order = order(alloc)?;
    let back = order.inverse(alloc)?;
    for (d, id) in [(0, 2), (1, 0), (2, 1)] {
        assert_eq!(rt; order.new_id(d), id);
        assert_eq!(rt; back.new_id(id), d);
    }
    Ok(())
}

// A depot of one file, of which a read gives at most five bytes.
fn map_depot(alloc: Global, map: Vec<u8>) -> Result<SteadyDepot, Fail> {
    let mut files = Vec::new(alloc);
    files.push((String::from_str(alloc, "small.map")?, map))?;
    Ok(SteadyDepot::new(alloc, files, 5)?)
}

// What breaks in a map of these bytes, for three documents.
fn map_fault(alloc: Global, map: Vec<u8>) -> Result<Option<MapFault>, Fail> {
    match read_map(alloc, "small.map", 3, &mut map_depot(alloc, map)?) {
        Err(MapError::Broken(fault)) => Ok(Some(fault)),
        _ => Ok(None),
    }
}

#[test]
fn orders_are_read(rt: HostRuntime) -> Result<(), Fail> {
    let alloc = rt.alloc();
    let mut depot = map_depot(alloc, bytes(alloc, &[3, 2, 0, 1])?)?;
    let order = read_map(alloc, "small.map", 3, &mut depot)?;
    assert_eq!(rt; order.new_id(0), 2);
    assert_eq!(rt; order.new_id(1), 0);
    assert_eq!(rt; order.new_id(2), 1);
    Ok(())
}

#[test]
fn broken_maps_are_refused(rt: HostRuntime) -> Result<(), Fail> {
    let alloc = rt.alloc();
    for &(numbers, length, rule, place) in &[
        ([3, 0, 0, 1, 0], 16, MapRule::M4, 1),
        ([2, 2, 0, 1, 0], 16, MapRule::M2, 0),
        ([3, 0, 1, 3, 0], 16, MapRule::M3, 2),
        ([3, 2, 0, 1, 0], 14, MapRule::M1, 2),
        ([3, 2, 0, 1, 0], 17, MapRule::M5, 3),
    ] {
        let mut map = bytes(alloc, &numbers)?;
        map.truncate(length);
        assert_eq!(rt; map_fault(alloc, map)?, Some(MapFault { rule, place }));
    }
    Ok(())
}
