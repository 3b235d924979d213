//! The steps on the table.

ghost use Rattle.std.specs.Prelude.{◌≡◌, ◌+◌, ◌<◌, ◌^◌, true, ◌++◌, [], ◌∷◌, length, slice_set};
ghost use Rattle.chase_laws.specs.Joined.{Joined};
ghost use Rattle.label_board.specs.Seen.{AllJoined, AllShown};
ghost use Rattle.label_board.specs.Rule.{IsSeatAt, with_posted, with_shown, with_read, between_posts};

use crate::knowledge::{About, Knowledge, PostedLabels};
use crate::plays::{CountUp, Glance, LoadLabel, Meet, Note, WriteLabel};
use atomic_table::{Seat, Shared};
use chase_laws::Entry;

pub(crate) type Words = Shared<Entry, Knowledge, About, PostedLabels>;

pub(crate) type Place = Seat<Entry, Knowledge>;

/// The word that counts the entries. Behind it stands the word of each name.
const COUNT: usize = 0;

/// Counts an entry up, as the last one posted. `count` is how many were posted before. A store can't announce the entry,
/// so it is a compare and exchange, which finds the count as it is: the scribe alone writes it.
pub(crate) fn count_up(words: &Words, scribe: &mut Place, count: u64, entry: &Entry)
    requires words { IsSeatAt scribe.old.table_id words.now.table_id words.now.key.names }
    requires scribe { (scribe.old.me.0.writes ≡ true) × (count ≡ length scribe.old.me.0.posted) × (count + 1 < 2 ^ 64) }
    ensures table { scribe.new.table_id ≡ scribe.old.table_id }
    ensures me { scribe.new.me ≡ (with_posted scribe.old.me.0 (scribe.old.me.0.posted ++ entry.now ∷ []), scribe.old.me.1) }
{
    words.compare_exchange_with::<CountUp>(scribe, COUNT, count, count + 1, entry);
}

/// Writes a name's label, which has to be joined with it under what was posted. An entry has to be counted up whose post is
/// not finished: else a watcher that stands even could have read the label that was there.
pub(crate) fn write_label(words: &Words, scribe: &mut Place, name: u32, label: u32)
    requires words { IsSeatAt scribe.old.table_id words.now.table_id words.now.key.names }
    requires scribe { (scribe.old.me.0.writes ≡ true) × (name < words.now.key.names) × Joined scribe.old.me.0.posted name label }
    requires posting { length scribe.old.me.0.since < length scribe.old.me.0.posted }
    ensures table { scribe.new.table_id ≡ scribe.old.table_id }
    ensures inside { name < length scribe.old.me.0.shown }
    ensures me { scribe.new.me ≡ (with_shown scribe.old.me.0 (slice_set scribe.old.me.0.shown name label), scribe.old.me.1) }
{
    words.store::<WriteLabel>(scribe, name as usize + 1, label as u64);
}

/// Loads the count. The scribe is between posts afterwards, and has met the watcher whose notes it has: these are joined, and
/// are what is shown where nothing was posted since that watcher last stood even.
pub(crate) fn load_count(words: &Words, scribe: &mut Place)
    requires words { IsSeatAt scribe.old.table_id words.now.table_id words.now.key.names }
    requires scribe { scribe.old.me.0.writes ≡ true }
    ensures table { scribe.new.table_id ≡ scribe.old.table_id }
    ensures me { scribe.new.me ≡ (between_posts scribe.old.me.0, scribe.old.me.1) }
    ensures met { AllJoined scribe.old.me.0.posted scribe.old.me.0.notes }
    ensures fresh { scribe.old.me.0.noted_since ≡ scribe.old.me.0.posted → AllShown scribe.old.me.0.shown scribe.old.me.0.notes }
{
    words.load::<Meet>(scribe, COUNT);
}

/// Loads a name's label.
pub(crate) fn load_label(words: &Words, watcher: &mut Place, name: u32) -> u32
    requires words { IsSeatAt watcher.old.table_id words.now.table_id words.now.key.names }
    requires name { name < words.now.key.names }
    ensures table { watcher.new.table_id ≡ watcher.old.table_id }
    ensures me { watcher.new.me.0 ≡ with_read watcher.old.me.0 (watcher.old.me.0.read ++ (name, result) ∷ []) }
{
    words.load::<LoadLabel>(watcher, name as usize + 1) as u32
}

/// Forgets what was read.
pub(crate) fn glance(words: &Words, watcher: &mut Place)
    requires words { IsSeatAt watcher.old.table_id words.now.table_id words.now.key.names }
    ensures table { watcher.new.table_id ≡ watcher.old.table_id }
    ensures me { watcher.new.me.0 ≡ with_read watcher.old.me.0 [] }
{
    words.load::<Glance>(watcher, COUNT);
}

/// A seat more, which has read as much since the same entries.
pub(crate) fn another(words: &Words, seat: &mut Place) -> Place
    requires words { IsSeatAt seat.old.table_id words.now.table_id words.now.key.names }
    ensures kept { (seat.new.table_id ≡ seat.old.table_id) × (seat.new.me ≡ seat.old.me) }
    ensures more { (result.table_id ≡ seat.old.table_id) × (result.me.1 ≡ []) × (result.me.0.read ≡ seat.old.me.0.read) × (result.me.0.since ≡ seat.old.me.0.since) }
{
    words.split_seat::<Note>(seat)
}

/// What a watcher read is joined under what the scribe posted, and is what is shown where nothing was posted since the
/// watcher last stood even.
pub(crate) fn compare(words: &Words, watcher: &mut Place, scribe: &mut Place)
    requires scribe_words { IsSeatAt scribe.old.table_id words.now.table_id words.now.key.names }
    requires watcher_words { IsSeatAt watcher.old.table_id words.now.table_id words.now.key.names }
    requires scribe { (scribe.old.me.0.writes ≡ true) × (scribe.old.me.0 ≡ between_posts scribe.old.me.0) }
    ensures kept { (scribe.new.me ≡ scribe.old.me) × (watcher.new.me ≡ watcher.old.me) }
    ensures table { (scribe.new.table_id ≡ scribe.old.table_id) × (watcher.new.table_id ≡ watcher.old.table_id) }
    ensures met { AllJoined scribe.old.me.0.posted watcher.old.me.0.read }
    ensures fresh { watcher.old.me.0.since ≡ scribe.old.me.0.posted → AllShown scribe.old.me.0.shown watcher.old.me.0.read }
{
    let note = words.split_seat::<Note>(watcher);
    words.join_seat::<Note>(scribe, note);
    load_count(words, scribe);
}
