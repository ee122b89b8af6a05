//! Numbers as short as they can be: 7 bits a byte, the lowest group first. Each byte but the last
//! has its highest bit set, and the last isn't 0 unless it is the only one, so a number has one form.
ghost use Rattle.std.specs.Prelude.{◌≡◌, ◌<◌, ◌≤◌, ◌^◌, ◌++◌, IfSome, OnOk, option_map};
ghost use Rattle.pages_codec.specs.Numbers.{number_bytes, number_at};

use std::alloc::AllocError;

/// The most bytes of a number. The numbers of a posting are at most 2^40.
pub const MOST_NUMBER_BYTES: u32 = 6;

/// The number in front, and the bytes behind it. Most numbers are of one byte.
#[tactic(auto, unfolding(crate::specs::Numbers::number_at))]
pub fn number_front(bytes: &[u8]) -> Option<(u64, &[u8])>
    ensures number { option_map (λ x. (x.0, x.1.now)) result ≡ number_at 6 bytes.now }
{
    let [low, rest @ ..] = bytes else {
        return None;
    };
    if *low < 128 {
        Some((*low as u64, rest))
    } else {
        long_number(MOST_NUMBER_BYTES, bytes)
    }
}

/// The same of a number of so many bytes at most.
#[tactic(auto, using(crate::proofs::NumberLemmas::number_steps))]
fn long_number(most: u32, bytes: &[u8]) -> Option<(u64, &[u8])>
    requires { most ≤ 6 }
    ensures number { option_map (λ x. (x.0, x.1.now)) result ≡ number_at most bytes.now }
    ensures bound { IfSome result (λ x. x.0 < 128 ^ most) }
{
    if most == 0 {
        return None;
    }
    let Some((low, rest)) = bytes.split_first() else {
        return None;
    };
    let low = *low as u64;
    if low < 128 {
        return Some((low, rest));
    }
    let Some((high, behind)) = long_number(most - 1, rest) else {
        return None;
    };
    if high == 0 {
        return None;
    }
    Some((low - 128 + 128 * high, behind))
}

/// Adds the bytes of a number.
pub fn put_number(bytes: &mut Vec<u8>, number: u64) -> Result<(), AllocError>
    requires { number < 2 ^ 42 }
    ensures { OnOk result (bytes.new.items ≡ bytes.old.items ++ number_bytes 6 number) }
{
    put_bytes(bytes, MOST_NUMBER_BYTES, number)
}

/// Adds so many bytes of a number at most.
#[tactic(auto, using(crate::proofs::NumberLemmas::number_steps))]
fn put_bytes(bytes: &mut Vec<u8>, most: u32, number: u64) -> Result<(), AllocError>
    ensures { OnOk result (bytes.new.items ≡ bytes.old.items ++ number_bytes most number) }
{
    if most == 0 {
        return Ok(());
    }
    if number < 128 {
        bytes.push(number as u8)?;
        return Ok(());
    }
    bytes.push((number % 128) as u8 + 128)?;
    put_bytes(bytes, most - 1, number / 128)
}
