//! What was found is counted, and its damage handed on.
ghost use Rattle.std.specs.Prelude.{◌≡◌, OnOk, IfErr};
ghost use Rattle.inspection.specs.Found.{cell_with, copy_with, only_damage};
ghost use Rattle.inspection.specs.Handing.{Reports, Stops};
ghost use Rattle.inspection.specs.declared.halt.Halt.TheVariants.{Untaken};

use crate::damage::{Damage, SpellsDamage};
use crate::halt::Halt;
use crate::tally::{Tally, one_more};
use dd_io::{Sink, SinkFault};

/// Hands a damage on, where there is one, and counts it.
pub fn hand_on<K: Sink, S: SpellsDamage>(
    sink: &mut K,
    tally: &mut Tally,
    damage: &Option<Damage>,
) -> Result<(), Halt>
    ensures done { OnOk result (Reports S.line (only_damage damage.now) (K.view sink.old) (K.view sink.new) tally.old tally.new) }
    ensures halt { IfErr result (λ halt. (halt ≡ Untaken)
        × Stops S.line (only_damage damage.now) (K.view sink.old) (K.view sink.new) halt) }
{
    let Some(found) = damage else {
        return Ok(());
    };
    match S::write(sink, found) {
        Ok(()) => {}
        Err(SinkFault) => return Err(Halt::Untaken),
    }
    tally.bad = one_more(tally.bad);
    Ok(())
}

/// Counts a cell or a header whose gate is open, and hands its damage on, where it has one.
pub fn add_cell<K: Sink, S: SpellsDamage>(
    sink: &mut K,
    tally: &mut Tally,
    damage: &Option<Damage>,
) -> Result<(), Halt>
    ensures done { OnOk result (Reports S.line (cell_with damage.now) (K.view sink.old) (K.view sink.new) tally.old tally.new) }
    ensures halt { IfErr result (λ halt. (halt ≡ Untaken)
        × Stops S.line (cell_with damage.now) (K.view sink.old) (K.view sink.new) halt) }
{
    tally.cells = one_more(tally.cells);
    hand_on::<K, S>(sink, tally, damage)
}

/// Counts an entry of a right header, and hands the damage of its copy on, where it has one.
pub fn add_copy<K: Sink, S: SpellsDamage>(
    sink: &mut K,
    tally: &mut Tally,
    damage: &Option<Damage>,
) -> Result<(), Halt>
    ensures done { OnOk result (Reports S.line (copy_with damage.now) (K.view sink.old) (K.view sink.new) tally.old tally.new) }
    ensures halt { IfErr result (λ halt. (halt ≡ Untaken)
        × Stops S.line (copy_with damage.now) (K.view sink.old) (K.view sink.new) halt) }
{
    tally.copies = one_more(tally.copies);
    hand_on::<K, S>(sink, tally, damage)
}
