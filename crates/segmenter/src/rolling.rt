//! The value of a window of 48 bytes, and of the next window from it.

ghost use Rattle.std.specs.Prelude.{◌≡◌, ℕ, ◌≤◌, List, [], ◌∷◌, ◌++◌, length};
ghost use Rattle.segmenter.specs.Segments.{window_value, window_at, is_hit};
ghost use Rattle.segmenter.specs.Cutting.{IsFirstHit};

/// The bytes of a window.
pub(crate) const WINDOW: usize = 48;

/// What the value of a window is multiplied by, modulo 2^64, for each byte that comes in.
const MULTIPLIER: u64 = 0x9E37_79B9_7F4A_7C15;

/// 2^64 less the 48th power of `MULTIPLIER`, modulo 2^64: adding a byte times this takes out what the byte came to
/// stand for in 48 steps.
const LEAVING: u64 = 0xEFCF_ECB6_D7E9_71BF;

/// A window hits where the top bits of its value are these.
const TOP: u64 = 0xFFF;

/// The bits below the top ones.
const LOW_BITS: u32 = 52;

/// Where a scan for a hit stopped.
#[derive(Drop)]
pub struct Scan {
    pub end: usize,
    pub value: u64,
    pub hit: bool,
}

/// The value of a window, computed anew.
pub fn value_of(window: &[u8]) -> u64
    ensures { result ≡ window_value window.now }
{
    let mut value = 0u64;
    for byte in window {
        value = value
            .wrapping_mul(MULTIPLIER)
            .wrapping_add(u64::from(*byte));
    }
    value
}

/// The value of the window that ends one byte later.
fn rolled(value: u64, leaving: u8, entering: u8) -> u64
    ensures { (kept : List ℕ) → length kept ≡ 47 → value ≡ window_value (leaving ∷ kept)
        → result ≡ window_value (kept ++ entering ∷ []) }
{
    let left = u64::from(leaving).wrapping_mul(LEAVING);
    let moved = value.wrapping_mul(MULTIPLIER);
    moved.wrapping_add(left).wrapping_add(u64::from(entering))
}

/// Whether a window of this value hits.
pub fn hits(value: u64) -> bool
    ensures { (window : List ℕ) → value ≡ window_value window → result ≡ is_hit window }
{
    value >> LOW_BITS == TOP
}

/// Finds the first window that hits, of those that end after `from` bytes or later. `value` is that of the first.
pub fn first_hit(bytes: &[u8], from: usize, value: u64) -> Scan
    requires long { 48 ≤ from }
    requires within { from ≤ length bytes.now }
    requires value { value ≡ window_value (window_at bytes.now from) }
    ensures { IsFirstHit bytes.now from result.end result.value result.hit }
{
    let mut value = value;
    for end in from..bytes.len() {
        if hits(value) {
            return Scan {
                end,
                value,
                hit: true,
            };
        }
        value = rolled(value, bytes[end - WINDOW], bytes[end]);
    }
    Scan {
        end: bytes.len(),
        value,
        hit: hits(value),
    }
}
