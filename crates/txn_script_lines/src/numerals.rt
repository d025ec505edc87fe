//! Numbers as plain decimals write them.
ghost use Rattle.std.specs.Prelude.{◌≡◌, ℕ, ◌<◌, ◌^◌, ◌↔◌, Some, IfSome};
ghost use Rattle.std.specs.Fmt.{decimal};
ghost use Rattle.txn_script_lines.specs.Numerals.{decimal_read, pair_text, PairFits};

use txn_store::digits::read_digits;

/// Reads a plain decimal: no sign, and no leading zero but in `0` itself.
pub fn read_decimal(text: &str) -> Option<u64>
    ensures value { result ≡ decimal_read text.now }
    ensures exact { (n : ℕ) → n < 2 ^ 64 → (result ≡ Some n) ↔ (text.now ≡ decimal n) }
{
    if text.len() > 1 && text.as_bytes()[0] == b'0' {
        return None;
    }
    read_digits(text)
}

/// Reads two plain decimals, divided by one space.
pub fn read_pair(text: &str) -> Option<(u64, u64)>
    ensures fits { IfSome result (λ pair. PairFits pair.0 pair.1) }
    ensures reads { IfSome result (λ pair. text.now ≡ pair_text pair.0 pair.1) }
    ensures all { (first second : ℕ)
        → PairFits first second → text.now ≡ pair_text first second
        → result ≡ Some (first, second) }
{
    let (first_word, second_word) = text.split_once(' ')?;
    let first = read_decimal(first_word)?;
    Some((first, read_decimal(second_word)?))
}
