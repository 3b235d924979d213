//! Which groups are looked at again when the classes of two names become one.

ghost use Rattle.std.specs.Prelude.{◌≡◌, ◌<◌, ℕ, Contains, length, slice_index};
ghost use Rattle.list_pool.specs.Pool.{list_at};
ghost use Rattle.class_book.specs.Classes.{first_stays, going};

use crate::owners::Owners;
use crate::queue::Queue;
use class_book::Book;

/// Lets all groups wait that have a name of a node's class among their images.
fn wake_class(book: &Book, owners: &Owners, queue: &mut Queue, node: u32)
    requires node { node < length book.now.labels }
    requires owners { length owners.now ≡ length book.now.labels }
    requires groups { (m g : ℕ) → Contains (list_at owners.now m) g → g < queue.old.count }
    ensures woken { (m g : ℕ) → m < length book.now.labels → slice_index book.now.labels m ≡ slice_index book.now.labels node →
        Contains (list_at owners.now m) g → Contains queue.new.list g }
    ensures kept { (g : ℕ) → Contains queue.old.list g → Contains queue.new.list g }
    ensures count { queue.new.count ≡ queue.old.count }
{
    let _label = book.label(node);
    let count = book.size(node);
    let mut member = Some(book.first_member(node));
    for done in 0..count {
        if let Some(name) = member {
            owners.queue_all(name, queue);
            member = book.next_member(name);
        }
    }
}

/// Whether the first node's class keeps its label when the classes of two nodes become one.
fn keeps_label(book: &Book, a: u32, b: u32) -> bool
    requires a { a < length book.now.labels }
    requires b { b < length book.now.labels }
    ensures { result ≡ first_stays book.now.labels (slice_index book.now.labels a) (slice_index book.now.labels b) }
{
    let first = book.size(a);
    let second = book.size(b);
    second < first || (first == second && book.label(a) < book.label(b))
}

/// Lets all groups wait that have a name among their images which gets another label when the classes of two nodes become
/// one.
pub fn wake(book: &Book, owners: &Owners, queue: &mut Queue, a: u32, b: u32)
    requires a { a < length book.now.labels }
    requires b { b < length book.now.labels }
    requires owners { length owners.now ≡ length book.now.labels }
    requires groups { (m g : ℕ) → Contains (list_at owners.now m) g → g < queue.old.count }
    ensures woken { (m g : ℕ) → m < length book.now.labels →
        slice_index book.now.labels m ≡ going book.now.labels (slice_index book.now.labels a) (slice_index book.now.labels b) →
        Contains (list_at owners.now m) g → Contains queue.new.list g }
    ensures kept { (g : ℕ) → Contains queue.old.list g → Contains queue.new.list g }
    ensures count { queue.new.count ≡ queue.old.count }
{
    let node = if keeps_label(book, a, b) { b } else { a };
    wake_class(book, owners, queue, node);
}
