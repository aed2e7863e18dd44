ghost use Rattle.std.specs.Prelude.{◌≡◌, ◌<◌, ◌^◌, ◌++◌, length, IfOk, OnOk};
ghost use Rattle.collection_model.specs.Bytes.{le32, number_sequence};
ghost use Rattle.collection_model.specs.Collection.{WellFormed};
ghost use Rattle.collection_model.specs.FormatNumbers.{format_two};
ghost use Rattle.collection_model.specs.Spelling.{spelled};
ghost use Rattle.remap.specs.Spelling.{AreShort, vectors_bytes};

use byteorder::{ByteOrder, LittleEndian};
use collection_reader::Collection;
use no_memory::NoMemory;
use std::alloc::{AllocError, Global};

/// The bytes of the file of documents of a collection: the number of documents, then the documents
/// of each list.
pub fn spell_docs(alloc: Global, collection: &Collection) -> Result<Vec<u8>, NoMemory>
    requires { WellFormed format_two collection.now }
    ensures { IfOk result (λ bytes. bytes.items ≡ (spelled collection.now).docs) }
{
    let mut bytes = Vec::new(alloc);
    push_sequence(&mut bytes, &[collection.documents])?;
    push_sequences(&mut bytes, collection.docs.as_slice())?;
    Ok(bytes)
}

/// The bytes of the file of frequencies of a collection: the frequencies of each list.
pub fn spell_freqs(alloc: Global, collection: &Collection) -> Result<Vec<u8>, NoMemory>
    requires { WellFormed format_two collection.now }
    ensures { IfOk result (λ bytes. bytes.items ≡ (spelled collection.now).freqs) }
{
    let mut bytes = Vec::new(alloc);
    push_sequences(&mut bytes, collection.freqs.as_slice())?;
    Ok(bytes)
}

/// The bytes of the file of sizes of a collection.
pub fn spell_sizes(alloc: Global, collection: &Collection) -> Result<Vec<u8>, NoMemory>
    requires { WellFormed format_two collection.now }
    ensures { IfOk result (λ bytes. bytes.items ≡ (spelled collection.now).sizes) }
{
    let mut bytes = Vec::new(alloc);
    push_sequence(&mut bytes, collection.sizes.as_slice())?;
    Ok(bytes)
}

// Appends a sequence for each of these vectors.
fn push_sequences(bytes: &mut Vec<u8>, vectors: &[Vec<u32>]) -> Result<(), AllocError>
    requires { AreShort vectors.now }
    ensures { OnOk result (bytes.new.items ≡ bytes.old.items ++ vectors_bytes vectors.now) }
{
    for numbers in vectors {
        push_sequence(bytes, numbers.as_slice())?;
    }
    Ok(())
}

// Appends a sequence: how many numbers there are, then the numbers.
fn push_sequence(bytes: &mut Vec<u8>, numbers: &[u32]) -> Result<(), AllocError>
    requires { length numbers.now < 2 ^ 32 }
    ensures { OnOk result (bytes.new.items ≡ bytes.old.items ++ number_sequence numbers.now) }
{
    push_number(bytes, numbers.len() as u32)?;
    for number in numbers {
        push_number(bytes, *number)?;
    }
    Ok(())
}

// Appends a number.
fn push_number(bytes: &mut Vec<u8>, number: u32) -> Result<(), AllocError>
    ensures { OnOk result (bytes.new.items ≡ bytes.old.items ++ le32 number) }
{
    let mut piece = [0; 4];
    LittleEndian::write_u32(&mut piece, number);
    bytes.extend_from_slice(&piece)
}
