ghost use Rattle.std.specs.Prelude.{◌≡◌, ℕ, ◌≤◌, Some, decimal, bytes_eq, IfSome};
ghost use Rattle.ldp_num.specs.Number.{limit};
ghost use Rattle.ldp_spelling.specs.Numbers.{whole_in, IsWhole};

use itoa::Buffer;
use ldp_decimal::read_decimal;
use ldp_num::LIMIT;

/// Whether the text is the decimal digits of a number, with no leading zero.
pub fn is_whole(text: &[u8], number: u64) -> bool
    ensures { result ≡ bytes_eq (decimal number) text.now }
{
    let mut buffer = Buffer::new();
    buffer.format(number).as_bytes() == text
}

#[tactic(auto, unfolding(crate::specs::Numbers::whole_in))]
fn whole(text: &[u8], low: u64, high: u64) -> Option<u64>
    ensures exact { result ≡ whole_in low high text.now }
{
    let number = read_decimal(text, 0, LIMIT).ok()?;
    let number = number.unsigned_abs() as u64;
    if low <= number && number <= high && is_whole(text, number) {
        Some(number)
    } else {
        None
    }
}

/// The whole number from `low` to `high` whose digits these are. Takes no memory.
pub fn read_whole(text: &[u8], low: u64, high: u64) -> Option<u64>
    requires { high ≤ limit }
    ensures exact { result ≡ whole_in low high text.now }
    ensures found { IfSome result (IsWhole low high text.now) }
    ensures only { (n : ℕ) → IsWhole low high text.now n → result ≡ Some n }
{
    whole(text, low, high)
}
