//! Numbers as digits write them.
ghost use Rattle.std.specs.Prelude.{◌≡◌, ℕ, ◌<◌, ◌^◌, ◌↔◌, Some};
ghost use Rattle.std.specs.Char.{is_ascii_digit};
ghost use Rattle.std.specs.List.{list_all};
ghost use Rattle.txn_store.specs.Digits.{digits_read, padded};

fn has_only_digits(text: &str) -> bool
    ensures { result ≡ list_all is_ascii_digit text.now }
{
    text.as_bytes().iter().all(|byte| byte.is_ascii_digit())
}

/// The number that digits write, where there are only digits, at least one, and it is below 2^64.
pub fn read_digits(text: &str) -> Option<u64>
    ensures { result ≡ digits_read text.now }
{
    if !has_only_digits(text) {
        return None;
    }
    text.parse::<u64>().ok()
}

/// The number that exactly 20 decimal digits write, if it is below 2^64.
pub(crate) fn read_padded(text: &str) -> Option<u64>
    ensures { (n : ℕ) → n < 2 ^ 64 → (result ≡ Some n) ↔ (text.now ≡ padded n) }
{
    if text.len() != 20 {
        return None;
    }
    read_digits(text)
}
