//! The words of the lock's table. Those that many look at lie 64 bytes apart, so that a step on one leaves the
//! others in the caches that have them.
ghost use Rattle.std.specs.Prelude.{◌≡◌, ◌<◌};
ghost use Rattle.turn_lock.specs.Serving as words;

/// The number of tickets drawn.
pub(crate) const TICKET: usize = 0;

/// The number of entries.
pub(crate) const COUNT: usize = 8;

/// How many words the table has.
pub(crate) const WORDS: usize = 528;

/// The word where a ticket is called. Tickets that are 64 apart share one, so with up to 64 seats each that waits
/// has a word of its own.
pub(crate) fn serving_word(ticket: u64) -> usize
    ensures word { result ≡ words.serving_word ticket }
    ensures within { result < 528 }
{
    16 + 8 * (ticket % 64) as usize
}
