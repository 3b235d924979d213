//! Texts that several tests run on. They stand behind functions, so that the proofs of the tests carry none of their bytes.

use fixtures::texts::{
    ALBUM_AND_ARTIST_KEYS, ALBUM_KEY, ALBUMS, ALBUMS_AND_ARTISTS, LINE_ENDS, ONE_VALUE,
    THREE_CLASSES,
};
use gk_base::NoMemory;
use std::alloc::Global;

/// Two albums with the same name and year.
pub fn albums() -> &'static [u8] {
    ALBUMS
}

/// A key for albums by name and year.
pub fn album_key() -> &'static [u8] {
    ALBUM_KEY
}

/// Four albums by two artists.
pub fn albums_and_artists() -> &'static [u8] {
    ALBUMS_AND_ARTISTS
}

/// Keys for albums by name and year, for artists by name and album, and for albums by name and artist.
pub fn album_and_artist_keys() -> &'static [u8] {
    ALBUM_AND_ARTIST_KEYS
}

/// The classes of the four albums and their artists.
pub fn three_classes() -> &'static str {
    THREE_CLASSES
}

/// A key of one value.
pub fn one_value() -> &'static [u8] {
    ONE_VALUE
}

/// Two entities with one value, in lines with all kinds of ends.
pub fn line_ends() -> &'static [u8] {
    LINE_ENDS
}

/// A text with another behind it.
pub fn joined(alloc: Global, front: &[u8], more: &[u8]) -> Result<Vec<u8>, NoMemory> {
    let mut text = front.to_vec(alloc)?;
    text.extend_from_slice(more)?;
    Ok(text)
}
