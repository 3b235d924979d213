//! What was read is joined under what was posted, and what was read since nothing was posted is what is shown.

ghost use Rattle.std.specs.Prelude.{◌≡◌, [], List, ℕ, IsTrue};
ghost use Rattle.chase_laws.specs.declared.entry.Entry.{Entry};
ghost use Rattle.chase_laws.specs.Joined.{Joined};
ghost use Rattle.chase_laws.specs.View.{same_by};
ghost use Rattle.chase_laws.specs.Core.{State, IsPresent};
ghost use Rattle.label_board.specs.Seen.{AllJoined, AllShown};

use crate::handles::{Board, Scribe, Watcher};
use crate::steps::{another, compare};
use chase_laws::laws::law_view;

impl Board {
    /// A watcher stands even with the scribe from now on, and has read nothing. It is one load, and takes no memory.
    pub fn renew(&self, scribe: &mut Scribe, watcher: &mut Watcher)
        requires scribe { scribe.old.board ≡ self.now.id }
        requires watcher { watcher.old.board ≡ self.now.id }
        ensures scribe { scribe.new ≡ scribe.old }
        ensures board { watcher.new.board ≡ watcher.old.board }
        ensures since { watcher.new.since ≡ scribe.old.posted }
        ensures read { watcher.new.read ≡ [] }
    {
        watcher.seat = another(&self.table.shared, &mut scribe.seat);
    }

    /// A watcher meets the scribe: each label that it has read is joined with its name under what was posted, from
    /// whatever moments the labels are; and where nothing was posted since the watcher last stood even, each is the label
    /// that is shown now. Neither changes.
    pub fn meet(&self, watcher: &mut Watcher, scribe: &mut Scribe)
        requires watcher { watcher.old.board ≡ self.now.id }
        requires scribe { scribe.old.board ≡ self.now.id }
        ensures watcher { watcher.new ≡ watcher.old }
        ensures scribe { scribe.new ≡ scribe.old }
        ensures met { AllJoined scribe.old.posted watcher.old.read }
        ensures fresh { watcher.old.since ≡ scribe.old.posted → AllShown scribe.old.shown watcher.old.read }
    {
        compare(&self.table.shared, &mut watcher.seat, &mut scribe.seat);
    }
}

/// What is the same by a view is joined, where each label of the view is joined with its name. It does nothing: its
/// contract is for proofs.
pub fn law_met()
    ensures { (entries : List Entry) (view : List (ℕ × ℕ)) → AllJoined entries view → (m n : ℕ) → IsTrue (same_by view m n) → Joined entries m n }
{
    law_view();
}

/// What has the labels that are shown has the present ones, where these are shown. It does nothing: its contract is for
/// proofs.
pub fn law_fresh()
    ensures { (S : State) (view : List (ℕ × ℕ)) → AllShown S.labels view → IsPresent S view }
{}
