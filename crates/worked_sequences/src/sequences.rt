ghost use Rattle.std.specs.Prelude.{◌≤◌, ◌<◌, ◌^◌, length, IsTrue};
ghost use Rattle.std.specs.List.{All};
ghost use Rattle.std.specs.List.Sorted.{IsStrictlyIncreasing};
ghost use Rattle.part_cost.specs.Formats.{numbers_of};
ghost use Rattle.part_cost.specs.Partition.{IsPartition};

use part_cost::Format;
use std::alloc::{AllocError, Global};
use std::process::Abort;
use two_level::write_seq;

// Whether the values rise, and a sequence of the format can have them.
pub(crate) fn is_sequence(values: &[u64], format: Format) -> bool
    ensures rising { IsTrue result → IsStrictlyIncreasing values.now }
    ensures below { IsTrue result → All (λ x. x < (numbers_of format).most_sum) values.now }
    ensures few { IsTrue result → length values.now ≤ (numbers_of format).most_documents }
{
    for i in 0..values.len() {
        if values[i] >= format.most_sum() || (i > 0 && values[i] <= values[i - 1]) {
            return false;
        }
    }
    values.len() as u64 <= format.most_documents() as u64
}

// Whether the ends are those of the parts of so many values.
pub(crate) fn is_partition(count: usize, ends: &[u64]) -> bool
    ensures { IsTrue result → IsPartition count ends.now }
{
    let mut from = 0;
    for end in ends {
        if *end <= from {
            return false;
        }
        from = *end;
    }
    from == count as u64
}

// So many numbers from a first one on, each so far from the one before it, and then a last one.
pub(crate) fn numbers(
    alloc: Global,
    first: u64,
    count: u64,
    step: u64,
    last: Option<u64>,
) -> Result<Vec<u64>, AllocError>
    requires first { first < 2 ^ 32 }
    requires small { step < 2 ^ 10 }
    requires few { count < 2 ^ 20 }
{
    let mut values = Vec::new(alloc);
    for k in 0..count {
        values.push(first + k * step)?;
    }
    if let Some(last) = last {
        values.push(last)?;
    }
    Ok(values)
}

// Values in parts that end at such places.
#[derive(Clone, Copy)]
pub(crate) struct Parted<'a> {
    pub(crate) values: &'a [u64],
    pub(crate) ends: &'a [u64],
}

// The words of values in parts that end at such places.
pub(crate) fn written(
    rt: &impl Abort,
    alloc: Global,
    values: &[u64],
    ends: &[u64],
    format: Format,
) -> Vec<u64> {
    assert!(rt; is_sequence(values, format));
    assert!(rt; is_partition(values.len(), ends));
    let mut words = Vec::new(alloc);
    write_seq(alloc, values, ends, format, &mut words).expect(rt, "memory");
    words
}
