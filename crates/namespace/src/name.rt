//! Which byte strings are names.

ghost use Rattle.std.specs.Prelude.{◌↔◌, IsTrue};
ghost use Rattle.disk_format.specs.Cells.{IsName};

use disk_format::MOST_NAME;

/// Whether bytes are a name: 1 to 255 of them, from 0x21 to 0x7E.
pub(crate) fn is_name(name: &[u8]) -> bool
    ensures { IsTrue result ↔ IsName name.now }
{
    1 <= name.len()
        && name.len() <= MOST_NAME
        && name.iter().all(|byte| 0x21 <= *byte && *byte <= 0x7E)
}
