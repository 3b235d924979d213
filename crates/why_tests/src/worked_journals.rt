//! Journals, with their names and keys, as tables.

use chase_laws::{Entry, Pattern, Places};
use fixtures::worked_patterns::{ALBUM_BY, ARTIST, NAME_AND_CODE, VALUE};
use fixtures::{PatternTable, patterns_of};
use gk_base::{NoMemory, Term, Text};
use std::alloc::Global;
use std::test::Fail;
use term_table::Names;

/// An entry: two names, the place of its key, and the names at the key's slots on either side.
type Row = (u32, u32, u32, &'static [u32], &'static [u32]);

/// A journal over some keys.
#[derive(Clone, Copy)]
pub(crate) struct Worked {
    pub(crate) keys: &'static [(&'static [u8], PatternTable<'static>)],
    pub(crate) rows: &'static [Row],
}

/// The names of both journals: four albums and two artists, and then values.
static IRIS: [&[u8]; 6] = [
    b"urn:al1", b"urn:al2", b"urn:al3", b"urn:al4", b"urn:ar1", b"urn:ar2",
];

static VALUES: [&[u8]; 4] = [b"Anthology 2", b"1996", b"The Beatles", b"Help!"];

/// Two albums by their name and year, then their artists, then two albums by these artists.
pub(crate) static ALBUMS: Worked = Worked {
    keys: &[
        (b"album_year", NAME_AND_CODE),
        (b"artist", ARTIST),
        (b"album_by", ALBUM_BY),
    ],
    rows: &[
        (0, 1, 0, &[0, 6, 7], &[1, 6, 7]),
        (4, 5, 1, &[4, 0, 8], &[5, 1, 8]),
        (2, 3, 2, &[2, 4, 9], &[3, 5, 9]),
    ],
};

/// Five entries by one value: 0, 1 and 4 are the same, and 2, 3 and 5, and the values 7 and 8.
pub(crate) static CHAINS: Worked = Worked {
    keys: &[(b"value", VALUE)],
    rows: &[
        (0, 1, 0, &[0, 6], &[1, 6]),
        (2, 3, 0, &[2, 6], &[3, 6]),
        (1, 4, 0, &[1, 9], &[4, 9]),
        (5, 3, 0, &[5, 9], &[3, 9]),
        (7, 8, 0, &[7, 6], &[8, 6]),
    ],
};

fn places(numbers: &[u32]) -> Places {
    let mut places = Places::empty();
    for number in numbers {
        if places.len() < 16 {
            places.push(*number);
        }
    }
    places
}

impl Worked {
    pub(crate) fn journal(&self, alloc: Global) -> Result<Vec<Entry>, NoMemory> {
        let mut journal = Vec::new(alloc);
        for (a, b, key, left, right) in self.rows {
            journal.push(Entry {
                a: *a,
                b: *b,
                key: *key,
                left: places(left),
                right: places(right),
            })?;
        }
        Ok(journal)
    }

    pub(crate) fn patterns(&self, alloc: Global) -> Result<Vec<Pattern>, Fail> {
        let mut tables = Vec::new(alloc);
        for (_, table) in self.keys {
            tables.push(*table)?;
        }
        Ok(patterns_of(alloc, &tables)?)
    }

    pub(crate) fn key_names(&self, alloc: Global) -> Result<Vec<Text>, NoMemory> {
        let mut names = Vec::new(alloc);
        for (name, _) in self.keys {
            names.push(Text::from_bytes(alloc, name)?)?;
        }
        Ok(names)
    }
}

/// Makes a term a name, where the names are few.
fn intern(names: &mut Names, term: Term) -> Result<(), NoMemory> {
    if names.len() < 1000 {
        names.intern(term)?;
    }
    Ok(())
}

/// The names of both journals.
pub(crate) fn names(alloc: Global) -> Result<Names, NoMemory> {
    let mut names = Names::new(alloc);
    for iri in &IRIS {
        intern(&mut names, Term::Iri(Text::from_bytes(alloc, iri)?))?;
    }
    for value in &VALUES {
        intern(&mut names, Term::Plain(Text::from_bytes(alloc, value)?))?;
    }
    Ok(names)
}
