//! The bytes that a machine in memory gives when it is pulled.
ghost use Rattle.std.specs.Prelude.{◌≡◌, ◌≤◌, ◌++◌, min, length, take, vec_len};

/// Bytes to be pulled, with the place of the next one and the most that one pull gives.
#[derive(Drop)]
pub struct Input {
    /// All bytes, those that were pulled too.
    pub bytes: Vec<u8>,
    /// How many were pulled.
    pub at: usize,
    /// The most bytes of one pull.
    pub limit: usize,
    ghost within: { at ≤ vec_len bytes },
    ghost some: { 1 ≤ limit },
}

impl Input {
    ghost use Rattle.std.specs.Prelude.{◌≡◌, ◌++◌, min, length, take, drop};
    ghost use Rattle.machine_mem.specs.Inputs.{bytes_left};

    /// Moves as many of the bytes left into the front of `buf` as fit there, up to the limit.
    pub fn pull(&mut self, buf: &mut [u8]) -> usize
        ensures count { result ≡ min (min (length buf.old) self.old.limit) (length (bytes_left self.old)) }
        ensures bytes { bytes_left self.old ≡ take result buf.new ++ bytes_left self.new }
        ensures rest { bytes_left self.new ≡ drop result (bytes_left self.old) }
        ensures limit { self.new.limit ≡ self.old.limit }
    {
        let left = &self.bytes[self.at..];
        let count = fill(buf, &left[..left.len().min(self.limit)]);
        self.at += count;
        count
    }
}

/// Copies as many of the bytes into the front of `buf` as fit there.
pub fn fill(buf: &mut [u8], bytes: &[u8]) -> usize
    ensures count { result ≡ min (length buf.old) (length bytes.now) }
    ensures bytes { take result buf.new ≡ take result bytes.now }
{
    let count = buf.len().min(bytes.len());
    buf[..count].copy_from_slice(&bytes[..count]);
    count
}
