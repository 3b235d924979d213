//! Journals and labels, compared.

use chase_laws::{Entry, Places};

/// Whether the entries identify these pairs by the keys at these places, in this order.
pub fn are_steps(journal: &[Entry], wanted: &[(u32, u32, u32)]) -> bool {
    if journal.len() != wanted.len() {
        return false;
    }
    for (entry, (a, b, key)) in journal.iter().zip(wanted) {
        if entry.a != *a || entry.b != *b || entry.key != *key {
            return false;
        }
    }
    true
}

/// Whether two lists have the same numbers.
fn are_same_places(places: &Places, others: &Places) -> bool {
    if places.len() != others.len() {
        return false;
    }
    for slot in 0..places.len() {
        if places.get(slot) != others.get(slot) {
            return false;
        }
    }
    true
}

/// Whether a journal begins with these entries, valuations and all.
pub fn begins_with(journal: &[Entry], front: &[Entry]) -> bool {
    if journal.len() < front.len() {
        return false;
    }
    for (entry, other) in journal.iter().zip(front) {
        if entry.a != other.a || entry.b != other.b || entry.key != other.key {
            return false;
        }
        if !are_same_places(&entry.left, &other.left)
            || !are_same_places(&entry.right, &other.right)
        {
            return false;
        }
    }
    true
}

/// Whether labels are equal exactly where these numbers are.
pub fn are_labels(labels: &[u32], wanted: &[u32]) -> bool {
    if labels.len() != wanted.len() {
        return false;
    }
    for (label, want) in labels.iter().zip(wanted) {
        for (other_label, other_want) in labels.iter().zip(wanted) {
            if (label == other_label) != (want == other_want) {
                return false;
            }
        }
    }
    true
}
