/// The three forms of a part.
#[derive(Clone, Copy, Debug, PartialEq, Eq)]
pub enum Kind {
    /// All places are taken: nothing is stored.
    Ones,
    /// A bit for each place.
    Bitmap,
    /// Elias-Fano: low bits apart, high bits in unary.
    Ef,
}

/// Which of the two sequences of a list.
#[derive(Clone, Copy, Debug, PartialEq, Eq)]
pub enum Which {
    /// Its documents.
    Docs,
    /// The sums of its frequencies.
    Freqs,
}
