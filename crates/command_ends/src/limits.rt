ghost use Rattle.std.specs.Prelude.{◌<◌, ◌^◌};
ghost use Rattle.std.specs.List.{All};

/// The most bytes of query text that are answered.
pub const LONGEST_TEXT: u64 = 1 << 40;

/// Words are numbers of 64 bits.
pub fn words_fit(words: &[u64])
    ensures { All (λ w. w < 2 ^ 64) words.now }
{}
