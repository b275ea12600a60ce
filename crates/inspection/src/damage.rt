//! What breaks the format, and how it is written.
ghost use Rattle.dd_io.specs.Flow.{SinkView, Sends};
ghost use Rattle.std.specs.Prelude.{ℕ, List};
ghost use Rattle.inspection.specs.declared.damage.Damage.{Damage as DamageValue};

use dd_io::{Sink, SinkFault};
use disk_format::Why;

/// Something on a disk that breaks the format.
#[derive(Clone, Copy)]
pub enum Damage {
    /// A cell, or the header in a slot.
    Cell {
        /// Its first byte on the disk.
        at: u64,
        why: Why,
    },
    /// A copy: its bytes have another digest than the entry of a right header says.
    Copy {
        slot: u32,
        /// The first byte, counted from the slot's data section.
        offset: u32,
        /// How many bytes.
        length: u32,
        want: [u8; 32],
        got: [u8; 32],
    },
}

/// How damages are written, as they are found.
pub trait SpellsDamage {
    /// The bytes of one.
    ghost line: { DamageValue → List ℕ };

    /// Writes one. A call that fails may have written a first part of it.
    fn write<K: Sink>(sink: &mut K, damage: &Damage) -> Result<(), SinkFault>
        ensures { Sends (line damage.now) result (K.view sink.old) (K.view sink.new) };
}
