//! Runs of rows, with the least numbers of the labels in each.

ghost use Rattle.std.specs.Prelude.{◌≡◌, ◌<◌, ◌+◌, ◌^◌, ℕ, List, Some, length};
ghost use Rattle.std.specs.List.{slice_get};
ghost use Rattle.certificate_text.specs.declared.certificate.Entry.{Entry};
ghost use Rattle.cost_model.specs.declared.parts.Carry.{Carry};
ghost use Rattle.space_search.specs.Rules.{Rules};
ghost use Rattle.route_certificate.specs.Index.{AreRows, HaveRuns, IsRun};
ghost use Rattle.route_certificate.specs.declared.rows.Row.{Row as RowOf};

use crate::rows::Row;

/// Gives each row the run that begins with it.
pub(crate) fn join(rows: &mut [Row])
    requires few { length rows.old < 2 ^ 32 }
    ensures kept { (rules : Rules Carry) (entries : List Entry) →
        AreRows rules entries rows.old → AreRows rules entries rows.new }
    ensures runs { HaveRuns rows.new 0 }
    ensures len { length rows.new ≡ length rows.old }
{
    let mut place = rows.len();
    'rows: while place > 0 {
        place -= 1;
        rows[place] = run_of(rows, place);
    }
}

/// The row at a place with the run that begins there, where those of the rows after it are known.
fn run_of(rows: &[Row], place: usize) -> Row
    requires few { length rows.now < 2 ^ 32 }
    requires within { place < length rows.now }
    requires runs { HaveRuns rows.now (place + 1) }
    ensures same { (row : RowOf) → slice_get rows.now place ≡ Some row →
        (result.place ≡ row.place) × (result.slot ≡ row.slot) }
    ensures run { IsRun rows.now place result }
{
    let row = rows[place];
    let mut low = row.low;
    let mut end = (place + 1) as u32;
    let goal = place.saturating_add(place & place.wrapping_neg());
    'runs: while (end as usize) < rows.len() && ((end as usize) < goal || place == 0) {
        let next = &rows[end as usize];
        low = low.least(&next.low);
        end = next.end;
    }
    Row {
        low,
        place: row.place,
        slot: row.slot,
        end,
    }
}
