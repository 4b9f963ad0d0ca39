//! Reading the text of a snapshot, part by part.
ghost use Rattle.std.specs.Prelude.{◌≡◌, ◌+◌, ◌-◌, ◌*◌, ◌<◌, ◌≤◌, ◌^◌, true, [], ◌∷◌, length, IfOk, SomeIff, MatchOption};
ghost use Rattle.shape_base.specs.Visibility.{IsVisibility};
ghost use Rattle.snapshot_merge.specs.VisText.{is_digit, digits_at, decimal_at, number_at, byte_at, numbers_within, listed_at, visibility_of};
ghost use Rattle.snapshot_merge.specs.Answers.{Gives};

use std::alloc::{AllocError, AllocFailed, Global};

/// Why a part could not be read.
#[derive(Clone, Copy, Drop)]
pub(crate) enum Fault {
    /// An allocation failed.
    OutOfMemory,
    /// How many bytes there are from the wrong one on.
    Wrong { left: usize },
}

impl From<AllocError> for Fault {
    ghost use Rattle.std.specs.Prelude.{◌≡◌};
    ghost use Rattle.snapshot_merge.specs.declared.reading.Fault.TheVariants as faults;

    ghost from_gives = { λ _ e. e ≡ faults.OutOfMemory };

    fn from(_error: AllocError) -> Fault {
        Fault::OutOfMemory
    }
}

impl<T: Drop> From<AllocFailed<T>> for Fault {
    ghost use Rattle.std.specs.Prelude.{◌≡◌};
    ghost use Rattle.snapshot_merge.specs.declared.reading.Fault.TheVariants as faults;

    ghost from_gives = { λ _ e. e ≡ faults.OutOfMemory };

    fn from(_error: AllocFailed<T>) -> Fault {
        Fault::OutOfMemory
    }
}

/// The number with one more digit, where it has 64 bits.
fn with_digit(number: u64, byte: u8) -> Option<u64>
    requires { is_digit byte ≡ true }
    ensures { SomeIff result (number * 10 + (byte - 48) < 2 ^ 64) (number * 10 + (byte - 48)) }
{
    let digit = (byte - b'0') as u64;
    number.checked_mul(10)?.checked_add(digit)
}

/// The first byte, and those after it.
fn next_byte(bytes: &[u8]) -> Option<(u8, &[u8])>
    ensures { MatchOption result (bytes.now ≡ []) (λ x. bytes.now ≡ x.0 ∷ x.1.now) }
{
    let (first, rest) = bytes.split_first()?;
    Some((*first, rest))
}

/// The number with the digits that follow.
fn digits(number: u64, bytes: &[u8]) -> Result<(u64, &[u8]), Fault>
    ensures { Gives (λ x. (x.0, x.1.now)) result (digits_at number bytes.now) }
{
    let mut number = number;
    let mut rest = bytes;
    'digits: while let Some((byte, others)) = next_byte(rest) {
        if !byte.is_ascii_digit() {
            return Ok((number, rest));
        }
        match with_digit(number, byte) {
            Some(more) => number = more,
            None => return Err(Fault::Wrong { left: rest.len() }),
        }
        rest = others;
    }
    Ok((number, rest))
}

/// A canonical decimal of 64 bits.
fn decimal(bytes: &[u8]) -> Result<(u64, &[u8]), Fault>
    ensures { Gives (λ x. (x.0, x.1.now)) result (decimal_at bytes.now) }
{
    match bytes {
        [] => Err(Fault::Wrong { left: 0 }),
        [b'0', rest @ ..] => Ok((0, rest)),
        [byte, rest @ ..] => {
            if byte.is_ascii_digit() {
                digits((*byte - b'0') as u64, rest)
            } else {
                Err(Fault::Wrong { left: bytes.len() })
            }
        }
    }
}

/// A number from `low` up to `high`.
fn number(low: u64, high: u64, bytes: &[u8]) -> Result<(u64, &[u8]), Fault>
    ensures read { Gives (λ x. (x.0, x.1.now)) result (number_at low high bytes.now) }
    ensures bound { IfOk result (λ x. (low ≤ x.0) × (x.0 ≤ high)) }
{
    let (number, rest) = decimal(bytes)?;
    if low <= number && number <= high {
        Ok((number, rest))
    } else {
        Err(Fault::Wrong { left: bytes.len() })
    }
}

/// The bytes after this one.
fn after(wanted: u8, bytes: &[u8]) -> Result<&[u8], Fault>
    ensures { Gives (λ x. x.now) result (byte_at wanted bytes.now) }
{
    match bytes {
        [] => Err(Fault::Wrong { left: 0 }),
        [first, rest @ ..] => {
            if *first == wanted {
                Ok(rest)
            } else {
                Err(Fault::Wrong { left: bytes.len() })
            }
        }
    }
}

/// Numbers that rise from `low` up to `high`, joined by commas, to the end of the text.
fn numbers(alloc: Global, low: u64, high: u64, bytes: &[u8]) -> Result<Vec<u64>, Fault>
    requires { high < 18446744073709551615 }
    ensures { Gives (λ x. x.items) result (numbers_within (length bytes.now) high low bytes.now) }
{
    let mut ids = Vec::new(alloc);
    let mut low = low;
    let mut rest = bytes;
    'ids: for _ in 0..bytes.len() {
        let (id, tail) = number(low, high, rest)?;
        ids.push(id)?;
        if tail.is_empty() {
            return Ok(ids);
        }
        rest = after(b',', tail)?;
        low = id + 1;
    }
    Err(Fault::Wrong { left: rest.len() })
}

/// The listed ids, to the end of the text.
fn listed(alloc: Global, low: u64, high: u64, bytes: &[u8]) -> Result<Vec<u64>, Fault>
    requires { high < 18446744073709551615 }
    ensures { Gives (λ x. x.items) result (listed_at low high bytes.now) }
{
    if bytes.is_empty() {
        return Ok(Vec::new(alloc));
    }
    numbers(alloc, low, high, bytes)
}

/// The parts of the text of a snapshot.
pub(crate) fn parts(alloc: Global, text: &[u8]) -> Result<(u64, u64, Vec<u64>), Fault>
    ensures read { Gives (λ x. record { xmin = x.0; xmax = x.1; listed = x.2.items }) result (visibility_of text.now) }
    ensures ordered { IfOk result (λ x. IsVisibility (record { xmin = x.0; xmax = x.1; listed = x.2.items })) }
{
    let (xmin, rest) = number(1, u64::MAX, text)?;
    let rest = after(b':', rest)?;
    let (xmax, rest) = number(xmin, u64::MAX, rest)?;
    let rest = after(b':', rest)?;
    let listed = listed(alloc, xmin, xmax - 1, rest)?;
    Ok((xmin, xmax, listed))
}
