// The table of a walk.
ghost use Rattle.std.specs.Prelude.{◌≡◌, ◌+◌, ◌<◌, ◌≤◌, length, IfOk, None, slice_index_or, slice_set};
ghost use Rattle.walk.specs.Stages.{merged, Staged};
ghost use Rattle.walk.specs.UnitTexts.{program_of, id_of};
ghost use Rattle.walk.specs.Walked.{Walked};

use crate::measure::Measure;
use crate::unit_text::UnitText;
use rules::op::Mnemonic;
use std::alloc::{AllocError, Global};

// Joins a value to the entry at place k.
fn merge<M: Measure>(measure: &M, table: &mut [Option<M::Value>], k: usize, v: M::Value)
    requires { k < length table.old }
    ensures { table.new ≡ slice_set table.old k (merged M.joined (slice_index_or table.old k None) v) }
{
    table[k] = match table[k] {
        Some(old) => Some(measure.join(old, v)),
        None => Some(v),
    };
}

// Hands the value at line i on to where its routes go, and begins a route after an EX-type line.
fn visit<M: Measure>(measure: &M, unit: &UnitText<'_>, i: usize, table: &mut [Option<M::Value>])
    requires low { unit.now.first ≤ i }
    requires within { i < unit.now.end }
    requires staged { Staged M.begins (M.effect measure.now) M.joined (program_of unit.now) (id_of unit.now) i table.old }
    ensures { Staged M.begins (M.effect measure.now) M.joined (program_of unit.now) (id_of unit.now) (i + 1) table.new }
{
    let Some(v) = table[i - unit.first] else {
        return;
    };
    let line = unit.line(i);
    let next = unit.following(i) - unit.first;
    let out = measure.step(i, line, v);
    if !line.is(Mnemonic::Ex) {
        merge(measure, table, next, out);
    }
    if line.is_jump() {
        merge(measure, table, usize::from(line.operand) - unit.first, out);
    }
    if line.is_exit() {
        merge(measure, table, next, measure.start());
    }
}

/// The walk over a unit: for each own line and for the end, the join over all routes that arrive there. The table has a place for each line
/// from the first to the end.
pub fn walk<M: Measure>(
    measure: &M,
    unit: &UnitText<'_>,
    heap: Global,
) -> Result<Vec<Option<M::Value>>, AllocError>
    ensures { IfOk result (λ t. Walked M.begins (M.effect measure.now) M.joined (program_of unit.now) (id_of unit.now) t.items) }
{
    let mut table = vec![in heap; None; unit.end - unit.first + 1]?;
    merge(measure, &mut table, 0, measure.start());
    // kept: a line hands its value on to later places of the table, so no iterator over the table serves; no plainer.
    for i in unit.first..unit.end {
        visit(measure, unit, i, &mut table);
    }
    Ok(table)
}
