//! Hexadecimal digits.
ghost use Rattle.std.specs.Prelude.{◌≡◌, ◌↔◌, ◌*◌, ◌≤◌, length, take, drop, IsTrue};
ghost use Rattle.std.specs.List.{list_all};
ghost use Rattle.std.specs.Char.{is_ascii_hexdigit};
ghost use Rattle.script_lines.specs.Grammar.{IsHex, pushed_bytes};

/// Whether these are hexadecimal digits, of either case, an even number of them and two at least.
pub(crate) fn is_hex(digits: &[u8]) -> bool
    ensures { IsTrue result ↔ IsHex digits.now }
{
    digits.len() >= 2 && digits.len() % 2 == 0 && has_hex_digits(digits)
}

fn has_hex_digits(digits: &[u8]) -> bool
    ensures { result ≡ list_all is_ascii_hexdigit digits.now }
{
    digits.iter().all(|digit| digit.is_ascii_hexdigit())
}

/// Puts the bytes that the digits of a push mean at the front of a buffer, a byte for each two digits, and answers how many
/// these are. Of a line of at most `MOST_LINE` bytes they are fewer than 4,096. What stands after them in the buffer stays.
pub fn decode_into(digits: &[u8], into: &mut [u8]) -> usize
    requires hex { IsHex digits.now }
    requires room { length digits.now ≤ 2 * length into.old }
    ensures count { 2 * result ≡ length digits.now }
    ensures bytes { take result into.new ≡ pushed_bytes digits.now }
    ensures rest { drop result into.new ≡ drop result into.old }
{
    let count = digits.len() / 2;
    let done = hex::decode_to_slice(digits, &mut into[..count]);
    prove!(done.is_ok());
    count
}
