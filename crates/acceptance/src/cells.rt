//! Bytes of an image: put over others, and the digests of cells and headers.
ghost use Rattle.std.specs.Prelude.{◌≡◌, length};

use sha2::{Digest, Sha256};
use transcripts::Fault;

/// Gives the cell, or the container header, at a place of the disk the digest of its fields.
pub(crate) fn seal(bytes: &mut [u8], at: u64) -> Result<(), Fault> {
    let count = bytes.len() as u64;
    if at > count || count - at < 49_664 {
        return Err(Fault::Place);
    }
    let place = at as usize;
    if at < 1_050_112 {
        let digest = Sha256::digest(&bytes[place + 1..place + 480]);
        bytes[place + 480..place + 512].copy_from_slice(&digest);
    } else {
        let digest = header_digest(&bytes[place..place + 49_664]);
        bytes[place + 24..place + 56].copy_from_slice(&digest);
    }
    Ok(())
}

/// Of a header with less than 256 entries.
fn header_digest(header: &[u8]) -> [u8; 32]
    requires { length header.now ≡ 49664 }
{
    let entries = 48 * usize::from(header[19]);
    let mut hasher = Sha256::new();
    hasher.update(&header[1..24]);
    hasher.update(&header[512..512 + entries]);
    hasher.finalize()
}
