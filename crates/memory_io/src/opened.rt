ghost use Rattle.std.specs.Prelude.{◌≡◌, ℕ, ◌≤◌, ◌<◌, length, take, drop, ◌++◌, ◌↔◌, [], vec_len, min};

// Bytes that are read from the front.
#[derive(Drop)]
pub(crate) struct Opened {
    bytes: Vec<u8>,
    at: usize,
    ghost within: { at ≤ vec_len bytes },
}

impl Opened {
    ghost use Rattle.memory_io.specs.Opened.{rest};

    pub(crate) fn new(bytes: Vec<u8>) -> Opened
        ensures { rest result ≡ bytes.items }
    {
        Opened { bytes, at: 0 }
    }

    // Moves the next bytes into the front of the buffer, at most so many.
    pub(crate) fn read(&mut self, buf: &mut [u8], most: usize) -> usize
        requires { 1 ≤ most }
        ensures moved { result ≡ min (min (length (rest self.old)) (length buf.old)) most }
        ensures next_bytes { rest self.old ≡ take result buf.new ++ rest self.new }
        ensures at_end { 0 < length buf.old → (result ≡ 0) ↔ (rest self.old ≡ []) }
    {
        let left = &self.bytes[self.at..];
        let n = left.len().min(buf.len()).min(most);
        buf[..n].copy_from_slice(&left[..n]);
        self.at += n;
        n
    }
}
