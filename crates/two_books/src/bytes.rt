// Packed plans of 256 terms and 256 pairs.
ghost use Rattle.std.specs.Prelude.{◌≤◌};

use std::alloc::{AllocError, Global};

// Pushes the lowest bits of a number, the highest of them first.
fn push(bits: &mut Vec<bool>, width: u16, value: u16) -> Result<(), AllocError>
    requires { width ≤ 16 }
{
    for i in (0..width).rev() {
        bits.push((value >> i) % 2 == 1)?;
    }
    Ok(())
}

// Pair q is the term 1 + 37 q below 255, and a larger one.
fn push_pair(bits: &mut Vec<bool>, q: u16) -> Result<(), AllocError> {
    let first = q.wrapping_mul(37) % 255;
    let second = first + 1 + q.wrapping_mul(101) % (255 - first);
    push(bits, 8, first)?;
    push(bits, 8, second)
}

// The byte of up to eight bits, the first of them the highest.
fn byte(bits: &[bool]) -> u8 {
    (0..8).fold(
        0,
        |byte, i| byte << 1 | u8::from(bits.get(i).is_some_and(|bit| *bit)),
    )
}

// The packed plan whose broader terms a function gives.
pub(crate) fn packed<F: Fn(u16) -> u16>(heap: Global, broader: F) -> Result<Vec<u8>, AllocError>
    requires { F.IsAlwaysCallable broader }
{
    let mut bits = Vec::new(heap);
    push(&mut bits, 9, 256)?;
    push(&mut bits, 9, 256)?;
    push(&mut bits, 8, 10)?;
    for term in 1..256 {
        push(&mut bits, 8, broader(term))?;
    }
    for q in 0..256 {
        push_pair(&mut bits, q)?;
    }
    bits.chunks(8).map(byte).collect(heap)
}
