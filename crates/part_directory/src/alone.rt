/// One part that stands at a place of lent words with no entry: the place of its first bit, and its
/// last value.
#[derive(Clone, Copy)]
pub struct Alone {
    pub place: u64,
    pub last: u64,
}
