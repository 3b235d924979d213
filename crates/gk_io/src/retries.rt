//! How often a call of std that is interrupted is tried again.

use crate::Failed;
use std::io;
use std::io::ErrorKind;

/// How often a call that is interrupted each time is made: once, and then 1,000 times again.
pub(crate) const MOST_TRIES: u32 = 1001;

/// What this call answers, which is made again as long as it is interrupted.
pub(crate) fn tried<T, F: FnMut() -> io::Result<T>>(mut call: F) -> Result<T, Failed>
    requires { F.IsAlwaysCallable call }
{
    for _ in 0..MOST_TRIES {
        match call() {
            Ok(answer) => return Ok(answer),
            Err(e) if e.kind() == ErrorKind::Interrupted => {}
            Err(_) => return Err(Failed),
        }
    }
    Err(Failed)
}
