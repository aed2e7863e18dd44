// The words of small index files.

// The words whose bytes are PEFINDEX and XEDNIFEP.
pub(crate) const OPENING: u64 = 0x5845_444e_4946_4550;

pub(crate) const END: u64 = 0x5045_4649_4e44_4558;

// Those whose bytes are PEFPACKD and DKCAPFEP, of packed files.
pub(crate) const PACKED_OPENING: u64 = 0x444b_4341_5046_4550;

pub(crate) const PACKED_END: u64 = 0x5045_4650_4143_4b44;

// Three documents of sizes 4, 0 and 7 with the list of 0 once and 2 five times.
pub(crate) const ONE_LIST: &[u64] = &[
    OPENING,
    1,
    137_438_953_474,
    0,
    5,
    137_438_953_477,
    0,
    33,
    4,
    7,
    2,
    5,
    4_294_967_298,
    21_474_836_481,
    3,
    1,
    8,
    END,
];

// That collection in the second format: its entries have three words.
pub(crate) const ONE_LIST_OF_TWO: &[u64] = &[
    OPENING,
    2,
    2,
    2,
    0,
    5,
    5,
    2,
    0,
    33,
    4,
    7,
    2,
    6,
    4_294_967_298,
    21_474_836_481,
    3,
    1,
    10,
    END,
];

// And in the first format with its documents in two parts: 0 alone, of which nothing is stored, and
// 2 in two bits.
pub(crate) const IN_TWO_PARTS: &[u64] = &[
    OPENING,
    1,
    68_719_476_736,
    0,
    137_438_953_474,
    0,
    2,
    137_438_953_477,
    0,
    33,
    4,
    7,
    2,
    7,
    8_589_934_594,
    21_474_836_481,
    3,
    1,
    10,
    END,
];

// Two documents of size 1 with the list of 0 once, an empty list, and the list of 1 three times. Of
// the first list nothing is stored, and of the last 2 bits for its document and 3 for its
// frequency.
pub(crate) const THREE_LISTS: &[u64] = &[
    OPENING,
    1,
    68_719_476_736,
    0,
    68_719_476_736,
    0,
    68_719_476_737,
    0,
    2,
    68_719_476_738,
    0,
    4,
    4_294_967_297,
    2,
    4,
    4_294_967_297,
    4_294_967_297,
    6,
    6,
    0,
    0,
    6,
    9,
    4_294_967_297,
    12_884_901_889,
    2,
    3,
    12,
    END,
];

// One document of size 0 with the list of it 101 times: of the frequencies the one value is 100, in
// Elias-Fano form a one behind a zero and 36 in six bits.
pub(crate) const ONE_WIDE_GAP: &[u64] = &[
    OPENING,
    1,
    68_719_476_736,
    0,
    68_719_476_836,
    0,
    146,
    0,
    2,
    4,
    4_294_967_297,
    433_791_696_897,
    1,
    1,
    7,
    END,
];

// The collection of one list as a packed file. The list takes 25 bits: 010 for two postings and
// 00110 for the greatest frequency 5; 0 01 101 for the documents, one part with the last value 2;
// and 0 0010 100001 for the frequencies, with 4 behind the least last value. The directory is 0 and
// 26 in 11 bits.
pub(crate) const ONE_PACKED_LIST: &[u64] = &[
    PACKED_OPENING,
    3,
    17_443_938,
    4,
    7,
    529,
    3,
    1,
    25,
    PACKED_END,
];

// The collection of three lists so. Lists of one posting take 3 and 5 bits, and the empty one none.
pub(crate) const THREE_PACKED_LISTS: &[u64] = &[
    PACKED_OPENING,
    3,
    235,
    4_294_967_297,
    2097,
    2,
    3,
    8,
    PACKED_END,
];
