//! What is known of a term before it is numbered.

/// What is known of a term of a list before it is numbered.
#[derive(Clone, Copy)]
pub enum Known {
    /// It is the same as the term at this place of the list, which is before its own.
    Before(u32),
    /// It is the name with this number.
    Named(u32),
    /// Neither is known. It may be a name all the same. The number is where a look-up of it begins, of which nothing is said: only
    /// speed rests on it.
    Unknown(u32),
}
