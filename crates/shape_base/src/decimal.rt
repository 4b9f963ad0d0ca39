//! Canonical decimals: digits without sign and without a leading zero, except `0` itself.
ghost use Rattle.std.specs.Prelude.{◌≡◌, ℕ, ◌<◌, ◌^◌, IfSome, IsNone, decimal};
ghost use Rattle.shape_base.specs.Decimal.{IsSplit, LacksByte};

use std::str;

/// The number of 64 bits that the text writes in canonical decimal, or none. It takes no memory.
pub fn read_decimal(text: &[u8]) -> Option<u64>
    ensures read { IfSome result (λ n. text.now ≡ decimal n) }
    ensures refused { IsNone result → (n : ℕ) → n < 2 ^ 64 → text.now ≡ decimal n → ⊥ }
{
    let Ok(text) = str::from_utf8(text) else {
        return None;
    };
    let Ok(number) = text.parse::<u64>() else {
        return None;
    };
    let mut buffer = itoa::Buffer::new();
    if buffer.format(number) == text {
        Some(number)
    } else {
        None
    }
}

/// The parts of the bytes before and after the first of that value, or none where there is no such byte.
pub fn split_at_first(bytes: &[u8], separator: u8) -> Option<(&[u8], &[u8])>
    ensures found { IfSome result (λ parts. IsSplit separator bytes.now parts.0.now parts.1.now) }
    ensures absent { IsNone result → LacksByte separator bytes.now }
{
    for (place, byte) in bytes.iter().enumerate() {
        if *byte == separator {
            return Some((&bytes[..place], &bytes[place + 1..]));
        }
    }
    None
}
