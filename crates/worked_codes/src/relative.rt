ghost use Rattle.std.specs.Prelude.{length, IsTrue};
ghost use Rattle.part_cost.specs.Span.{AreRelative};

// Whether the values rise, and the last is u - 1.
pub fn is_relative(values: &[u64], u: u64) -> bool
    ensures { IsTrue result → AreRelative u (length values.now) values.now }
{
    for i in 1..values.len() {
        if values[i] <= values[i - 1] {
            return false;
        }
    }
    match values.last() {
        Some(last) => *last < u && *last + 1 == u,
        None => false,
    }
}
