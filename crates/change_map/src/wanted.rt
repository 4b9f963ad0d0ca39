//! UTF-8, byte by byte: what it wants after some bytes (RFC 3629, section 4).
ghost use Rattle.std.specs.Prelude.{ℕ, ◌≡◌, List, ◌∷◌, ◌++◌, [], MatchOption, ◌==◌};
ghost use Rattle.std.specs.Str.{IsUtf8};
ghost use Rattle.change_map.specs.Reading.{Wants};

/// The bytes that a character still lacks.
#[derive(Clone, Copy)]
pub(crate) struct Wanted {
    /// How many they are.
    pub(crate) left: u8,
    /// The least value that the next one may have.
    pub(crate) low: u8,
    /// The greatest value that the next one may have.
    pub(crate) high: u8,
}

/// The first and the last byte that go on with a character.
const LOW: u8 = 0x80;

const HIGH: u8 = 0xBF;

/// What is wanted after whole characters.
pub(crate) fn nothing() -> Wanted
    ensures { (bytes : List ℕ) → IsUtf8 bytes → Wants bytes result }
{
    Wanted {
        left: 0,
        low: LOW,
        high: HIGH,
    }
}

fn lacking(left: u8, low: u8, high: u8) -> Option<Wanted>
    ensures { result ≡ Some (record { left = left; low = low; high = high }) }
{
    Some(Wanted { left, low, high })
}

/// What is wanted after the first byte of a character, or none where no character begins with it.
fn after_first(byte: u8) -> Option<Wanted>
    ensures { MatchOption result ((rest : List ℕ) → ¬ (IsUtf8 (byte ∷ rest))) (Wants (byte ∷ [])) }
{
    match byte {
        0..=0x7F => lacking(0, LOW, HIGH),
        0xC2..=0xDF => lacking(1, LOW, HIGH),
        0xE0 => lacking(2, 0xA0, HIGH),
        0xED => lacking(2, LOW, 0x9F),
        0xE1..=0xEF => lacking(2, LOW, HIGH),
        0xF0 => lacking(3, 0x90, HIGH),
        0xF1..=0xF3 => lacking(3, LOW, HIGH),
        0xF4 => lacking(3, LOW, 0x8F),
        _ => None,
    }
}

/// What is wanted after one more byte, or none where no UTF-8 goes on with it.
pub(crate) fn after(before: Wanted, byte: u8) -> Option<Wanted>
    ensures { (bytes : List ℕ) → Wants bytes before → MatchOption result ((rest : List ℕ) → ¬ (IsUtf8 (bytes ++ byte ∷ rest))) (Wants (bytes ++ byte ∷ [])) }
{
    if before.left == 0 {
        return after_first(byte);
    }
    if byte < before.low || before.high < byte {
        return None;
    }
    lacking(before.left - 1, LOW, HIGH)
}
