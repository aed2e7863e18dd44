ghost use Rattle.std.specs.Prelude.{◌≡◌, IfOk};
ghost use Rattle.serde_json.specs.View.{view};
ghost use Rattle.pef_report.specs.Summary.{summary_of};

use crate::counts::Counts;
use no_memory::NoMemory;
use serde_json::{Value, json};
use std::alloc::{AllocError, Global};

/// An object with the counts under their names.
pub fn summary(alloc: Global, counts: &Counts) -> Result<Value, NoMemory>
    ensures { IfOk result (λ v. view v ≡ summary_of counts.now) }
{
    Ok(object_of(alloc, counts)?)
}

// The object, with the refusal of its allocations.
fn object_of(alloc: Global, counts: &Counts) -> Result<Value, AllocError>
    ensures { IfOk result (λ v. view v ≡ summary_of counts.now) }
{
    json!(in alloc; {
        "bitmap_parts": counts.bitmap_parts,
        "documents": counts.documents,
        "ef_parts": counts.ef_parts,
        "ones_parts": counts.ones_parts,
        "payload_bits": counts.payload_bits,
        "postings": counts.postings,
        "size_total": counts.size_total,
        "terms": counts.terms,
        "version": counts.version,
        "words": counts.words
    })
}
