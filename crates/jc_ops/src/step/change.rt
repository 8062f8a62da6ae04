//! A line of the case table carried out.
ghost use Rattle.std.specs.Prelude.{◌≡◌, Option, is_some};
ghost use Rattle.jc_model.specs.State.{Item};
ghost use Rattle.jc_model.specs.Run.{ended};
ghost use Rattle.jc_model.specs.Step.{counted};
ghost use Rattle.jc_ops.specs.Noted.{StoredIsTold};
ghost use Rattle.jc_ops.specs.Kept.{FoundRow};
ghost use Rattle.jc_ops.specs.Visited.{SpendsAtMost, HasPlacesIn, progress_in};
ghost use Rattle.jc_ops.specs.Carried.{CanEnd, HasRoomToStore, changed_in, line_run};
ghost use Rattle.jc_ops.specs.Lines.{told_of};

use crate::step::reply::reply_of;
use crate::stored::Stored;
use crate::supply::Supply;
use crate::supply::values::Values;
use crate::visit::Visit;
use jc_model::call::Reply;
use jc_model::key::Key;
use jc_model::owners::Owners;
use jc_model::table::{Change, TableLine};
use jc_ring::ring::Ring;
use jc_rows::rows::Rows;

/// Counts a hit where the key has a row, else a miss, if the line counts.
pub(super) fn count<R: Rows, G: Ring>(visit: &mut Visit<R, G>, counts: bool, there: bool)
    ensures same { visit.new ≡ record visit.old {
      cache = record visit.old.cache { counts = visit.new.cache.counts };
    } }
    ensures progress { (row : Option Item) → is_some row ≡ there →
        progress_in visit.new ≡ counted counts row (progress_in visit.old) }
{
    if counts {
        if there {
            visit.hit();
        } else {
            visit.miss();
        }
    }
}

/// What becomes of the key's row, with the value that is stored, if any.
fn change<R: Rows, G: Ring>(
    visit: &mut Visit<R, G>,
    key: &Key,
    row: Option<u32>,
    change: Change,
    stored: Option<Stored>,
)
    requires row { FoundRow key.now visit.old.cache row }
    requires places { HasPlacesIn (told_of (is_some row) change) visit.old }
    requires told { StoredIsTold visit.old.cache.config stored }
    requires room { HasRoomToStore row change stored visit.old.spare }
    ensures spends { SpendsAtMost 1 (told_of (is_some row) change) visit.old visit.new }
    ensures progress { progress_in visit.new ≡ changed_in visit.old key.now change stored }
{
    match change {
        Change::Keep => drop(stored),
        Change::Access => {
            drop(stored);
            if let Some(row) = row {
                visit.access(row);
            }
        }
        Change::Store => {
            if let Some(stored) = stored {
                match row {
                    Some(row) => visit.update(row, stored),
                    None => _ = visit.create(*key, stored),
                }
            }
        }
        Change::Put => {
            if let Some(stored) = stored {
                match row {
                    Some(row) => {
                        visit.update(row, stored);
                        visit.put();
                    }
                    None => {
                        if visit.create(*key, stored) {
                            visit.put();
                        }
                    }
                }
            }
        }
        Change::Remove => {
            drop(stored);
            if let Some(row) = row {
                visit.delete(row);
                visit.removal();
            }
        }
    }
}

/// Carries a line out, with what is stored and shown of the supply, and gives its reply.
pub(super) fn end<R: Rows, G: Ring>(
    visit: &mut Visit<R, G>,
    key: &Key,
    line: TableLine,
    supply: Supply,
) -> Owners<Reply>
    requires ready { CanEnd visit.old key.now line supply }
    ensures spends { SpendsAtMost 1 (told_of (is_some supply.row) line.change)
        visit.old visit.new }
    ensures run { line_run visit.old key.now line supply.values
        ≡ ended (progress_in visit.new) result }
{
    let Supply { row, values } = supply;
    let Values { stored, shown, .. } = values;
    count(visit, line.counts, row.is_some());
    change(visit, key, row, line.change, stored);
    reply_of(line.reply, shown)
}
