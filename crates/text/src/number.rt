ghost use Rattle.std.specs.Prelude.{◌≢◌, ◌≡◌, ◌^◌, ◌<◌, ◌&&◌, ◌==◌, ℕ, MatchOption, decimal, length, nat_lt, slice_index};
ghost use Rattle.std.specs.Char.{is_ascii_digit};
ghost use Rattle.std.specs.List.{list_all};

use std::str;

// Whether there are only decimal digits.
pub(crate) fn all_digits(bytes: &[u8]) -> bool
    ensures { result ≡ list_all is_ascii_digit bytes.now }
{
    bytes.iter().all(u8::is_ascii_digit)
}

// Whether a zero stands in front of other bytes.
fn has_needless_zero(bytes: &[u8]) -> bool
    ensures { result ≡ (nat_lt 1 (length bytes.now) && slice_index bytes.now 0 == 48) }
{
    bytes.len() > 1 && bytes[0] == b'0'
}

// The number that the bytes spell in decimal digits, with no sign and no needless zero, if it fits 32 bits.
pub(crate) fn spelled(bytes: &[u8]) -> Option<u32>
    ensures { MatchOption result
        ((n : ℕ) → n < 2 ^ 32 → decimal n ≢ bytes.now) (λ n. decimal n ≡ bytes.now) }
{
    if !all_digits(bytes) || has_needless_zero(bytes) {
        return None;
    }
    str::from_utf8(bytes).ok()?.parse().ok()
}
