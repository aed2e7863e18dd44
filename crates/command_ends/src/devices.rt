/// What a command works on: its own, or, where the fields are `&mut`, what its caller lends.
#[derive(Drop)]
pub struct Devices<D, I, O> {
    /// The files.
    pub depot: D,
    /// The input, of which the queries are read.
    pub input: I,
    /// Where it prints.
    pub out: O,
}
