//! Hexadecimal digits.
ghost use Rattle.std.specs.Prelude.{◌≡◌, ◌*◌, length};
ghost use Rattle.hex.specs.Hex.{encode_lower};

/// Puts the hexadecimal digits of some bytes, in lower case.
pub(crate) fn put_digits(bytes: &[u8], digits: &mut [u8])
    requires { length digits.old ≡ 2 * length bytes.now }
    ensures { digits.new ≡ encode_lower bytes.now }
{
    let done = hex::encode_to_slice(bytes, digits);
    prove!(done.is_ok());
}
