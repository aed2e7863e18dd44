/// What an index is summed up by. Parts are those of both sequences of each list, of documents and
/// of frequencies.
#[derive(Clone, Copy, Debug, PartialEq, Eq)]
pub struct Counts {
    /// Parts that are written as bitmaps.
    pub bitmap_parts: u64,
    /// Documents of the collection.
    pub documents: u64,
    /// Parts that are written in Elias-Fano form.
    pub ef_parts: u64,
    /// Parts of which nothing is stored, as all places are taken.
    pub ones_parts: u64,
    /// The bits of all parts, without those of the directories and without padding.
    pub payload_bits: u64,
    /// Pairs of a term and a document.
    pub postings: u64,
    /// The sum of the sizes of all documents.
    pub size_total: u64,
    /// Posting lists.
    pub terms: u64,
    /// The version of the format: 1, 2, or 3 of a packed file.
    pub version: u64,
    /// Words of the file, of 64 bits.
    pub words: u64,
}
