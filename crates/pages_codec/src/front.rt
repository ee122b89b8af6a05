//! Numbers of a fixed width in front of bytes.
ghost use Rattle.std.specs.Prelude.{◌≡◌, ◌≤◌, take, drop, length};
ghost use Rattle.std.specs.Int.{w8, w16, w32, w64, from_be_bytes};

/// A number of one byte, and the bytes behind it.
pub fn u8_front(bytes: &[u8]) -> (u8, &[u8])
    requires { 1 ≤ length bytes.now }
    ensures number { result.0 ≡ from_be_bytes w8 (take 1 bytes.now) }
    ensures rest { result.1.now ≡ drop 1 bytes.now }
{
    let (front, rest) = bytes.split_at(1);
    (front[0], rest)
}

/// A number of 2 bytes, and the bytes behind it.
pub fn u16_front(bytes: &[u8]) -> (u16, &[u8])
    requires { 2 ≤ length bytes.now }
    ensures number { result.0 ≡ from_be_bytes w16 (take 2 bytes.now) }
    ensures rest { result.1.now ≡ drop 2 bytes.now }
{
    let (front, rest) = bytes.split_at(2);
    (u16::from_be_bytes([front[0], front[1]]), rest)
}

/// A number of 4 bytes, and the bytes behind it.
pub fn u32_front(bytes: &[u8]) -> (u32, &[u8])
    requires { 4 ≤ length bytes.now }
    ensures number { result.0 ≡ from_be_bytes w32 (take 4 bytes.now) }
    ensures rest { result.1.now ≡ drop 4 bytes.now }
{
    let (front, rest) = bytes.split_at(4);
    (
        u32::from_be_bytes([front[0], front[1], front[2], front[3]]),
        rest,
    )
}

/// A number of 8 bytes, and the bytes behind it.
pub fn u64_front(bytes: &[u8]) -> (u64, &[u8])
    requires { 8 ≤ length bytes.now }
    ensures number { result.0 ≡ from_be_bytes w64 (take 8 bytes.now) }
    ensures rest { result.1.now ≡ drop 8 bytes.now }
{
    let (front, rest) = bytes.split_at(8);
    let number = u64::from_be_bytes([
        front[0], front[1], front[2], front[3], front[4], front[5], front[6], front[7],
    ]);
    (number, rest)
}
