//! The lines of `check`: docs/FORMAT.md, 'Check' and 'Texts'.
ghost use Rattle.std.specs.Prelude.{◌≡◌};
ghost use Rattle.dd_io.specs.Flow.{Sends};
ghost use Rattle.disk_format.specs.declared.why.Why.TheVariants.{Digest, Field};
ghost use Rattle.inspection.specs.declared.damage.Damage.TheVariants.{Cell, Copy};
ghost use Rattle.reply_text.specs.Text.{damage_line, checked_line};

use crate::digits::put_digits;
use crate::notes::write_pieces;
use dd_io::{Sink, SinkFault};
use disk_format::Why;
use inspection::Damage;
use itoa::Buffer;

/// Writes the line of something that breaks the format. It takes no memory.
pub fn write_damage<K: Sink>(sink: &mut K, damage: &Damage) -> Result<(), SinkFault>
    ensures { Sends (damage_line damage.now) result (K.view sink.old) (K.view sink.new) }
{
    match damage {
        Damage::Cell { at, why } => write_cell(sink, *at, why),
        Damage::Copy {
            slot,
            offset,
            length,
            want,
            got,
        } => write_copy(sink, *slot, *offset, *length, want, got),
    }
}

fn write_cell<K: Sink>(sink: &mut K, at: u64, why: &Why) -> Result<(), SinkFault>
    ensures { Sends (damage_line (Cell at why.now)) result (K.view sink.old) (K.view sink.new) }
{
    match why {
        Why::Digest { want, got } => write_cell_digest(sink, at, want, got),
        Why::Field { offset, got } => write_cell_field(sink, at, *offset, *got),
    }
}

#[tactic(auto, unfolding(crate::specs::Text::damage_line))]
fn write_cell_digest<K: Sink>(
    sink: &mut K,
    at: u64,
    want: &[u8; 32],
    got: &[u8; 32],
) -> Result<(), SinkFault>
    ensures { Sends (damage_line (Cell at (Digest want.now got.now))) result (K.view sink.old) (K.view sink.new) }
{
    let mut at_text = Buffer::new();
    let (mut want_digits, mut got_digits) = ([0u8; 64], [0u8; 64]);
    put_digits(want, &mut want_digits);
    put_digits(got, &mut got_digits);
    write_pieces(
        sink,
        &[
            b"cell ",
            at_text.format(at).as_bytes(),
            b" digest ",
            &want_digits,
            b" ",
            &got_digits,
            b"\n",
        ],
    )
}

#[tactic(auto, unfolding(crate::specs::Text::damage_line))]
fn write_cell_field<K: Sink>(sink: &mut K, at: u64, offset: u32, got: u64) -> Result<(), SinkFault>
    ensures { Sends (damage_line (Cell at (Field offset got))) result (K.view sink.old) (K.view sink.new) }
{
    let (mut at_text, mut offset_text, mut got_text) = (
        Buffer::new(),
        Buffer::new(),
        Buffer::new(),
    );
    write_pieces(
        sink,
        &[
            b"cell ",
            at_text.format(at).as_bytes(),
            b" field ",
            offset_text.format(offset).as_bytes(),
            b" ",
            got_text.format(got).as_bytes(),
            b"\n",
        ],
    )
}

#[tactic(auto, unfolding(crate::specs::Text::damage_line))]
fn write_copy<K: Sink>(
    sink: &mut K,
    slot: u32,
    offset: u32,
    length: u32,
    want: &[u8; 32],
    got: &[u8; 32],
) -> Result<(), SinkFault>
    ensures { Sends (damage_line (Copy slot offset length want.now got.now)) result (K.view sink.old) (K.view sink.new) }
{
    let (mut slot_text, mut offset_text, mut length_text) = (
        Buffer::new(),
        Buffer::new(),
        Buffer::new(),
    );
    let (mut want_digits, mut got_digits) = ([0u8; 64], [0u8; 64]);
    put_digits(want, &mut want_digits);
    put_digits(got, &mut got_digits);
    write_pieces(
        sink,
        &[
            b"copy ",
            slot_text.format(slot).as_bytes(),
            b" ",
            offset_text.format(offset).as_bytes(),
            b" ",
            length_text.format(length).as_bytes(),
            b" ",
            &want_digits,
            b" ",
            &got_digits,
            b"\n",
        ],
    )
}

/// Writes the last line: how many cells and headers with open gates were read, how many entries right headers have, and how much
/// breaks the format. It takes no memory.
#[tactic(auto, unfolding(crate::specs::Text::checked_line))]
pub fn write_checked<K: Sink>(
    sink: &mut K,
    cells: u64,
    copies: u64,
    bad: u64,
) -> Result<(), SinkFault>
    ensures { Sends (checked_line cells copies bad) result (K.view sink.old) (K.view sink.new) }
{
    let (mut cells_text, mut copies_text, mut bad_text) = (
        Buffer::new(),
        Buffer::new(),
        Buffer::new(),
    );
    write_pieces(
        sink,
        &[
            b"checked cells ",
            cells_text.format(cells).as_bytes(),
            b" copies ",
            copies_text.format(copies).as_bytes(),
            b" bad ",
            bad_text.format(bad).as_bytes(),
            b"\n",
        ],
    )
}
