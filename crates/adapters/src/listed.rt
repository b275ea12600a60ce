//! Names with their roots, and the text that lists them: docs/FORMAT.md, 'Texts'.
use namespace::{Change, Listing, Names, Record, Root};
use std::alloc::Global;
use std::test::Fail;

/// The SHA-256 of `abc`, by FIPS 180-4.
static ABC: [u8; 32] = [
    0xba, 0x78, 0x16, 0xbf, 0x8f, 0x01, 0xcf, 0xea, 0x41, 0x41, 0x40, 0xde, 0x5d, 0xae, 0x22, 0x23,
    0xb0, 0x03, 0x61, 0xa3, 0x96, 0x17, 0x7a, 0x9c, 0xb4, 0x10, 0xff, 0x61, 0xf2, 0x00, 0x15, 0xad,
];

/// That of no bytes.
static EMPTY: [u8; 32] = [
    0xe3, 0xb0, 0xc4, 0x42, 0x98, 0xfc, 0x1c, 0x14, 0x9a, 0xfb, 0xf4, 0xc8, 0x99, 0x6f, 0xb9, 0x24,
    0x27, 0xae, 0x41, 0xe4, 0x64, 0x9b, 0x93, 0x4c, 0xa4, 0x95, 0x99, 0x1b, 0x78, 0x52, 0xb8, 0x55,
];

/// The text of `three_files`.
pub(crate) static LISTED: &[u8] =
    b"file Z 1099511627776 6 fefefefefefefefefefefefefefefefefefefefefefefefefefefefefefefefe
file a 0 0 e3b0c44298fc1c149afbf4c8996fb92427ae41e4649b934ca495991b7852b855
file b 3 0 ba7816bf8f01cfea414140de5dae2223b00361a396177a9cb410ff61f20015ad
listed 3
";

/// Three names, which were given by turns in the other order.
pub(crate) fn three_files(alloc: Global) -> Result<Listing, Fail> {
    let rows: [(&[u8], u64, u64, u8, [u8; 32]); 3] = [
        (b"b", 1, 3, 0, ABC),
        (b"a", 2, 0, 0, EMPTY),
        (b"Z", 3, 1_099_511_627_776, 6, [0xfe; 32]),
    ];
    let mut names = Names::new(alloc);
    for (name, sequence, length, level, digest) in rows {
        let put = Record {
            sequence,
            name: Vec::from_slice(alloc, name)?,
            change: Change::Put(Root {
                length,
                level,
                digest,
            }),
        };
        if names.apply(&put).is_err() {
            return Err("the name was refused".into());
        }
    }
    Ok(names.files(alloc)?)
}
