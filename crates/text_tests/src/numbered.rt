use crate::sample::Sample;
use gk_base::{NoMemory, Term, Text};
use std::alloc::Global;
use std::hash::{FoldHasher, Hasher};
use std::process::Abort;
use std::thread::Threads;
use term_list::{TermRef, Terms};
use term_table::Names;

// The calls below stand behind functions that promise nothing, so that the proof of a test has little to carry.

/// More names than any test has.
const MANY: u32 = 10_000;

/// The number of a term, which becomes a name where it is none. There is no number where there are many names.
fn number_of(names: &mut Names, term: Term) -> Result<Option<u32>, NoMemory> {
    if names.len() < MANY {
        Ok(Some(names.intern(term)?))
    } else {
        Ok(None)
    }
}

/// The numbers of the terms, as they are interned together. There are none where there are many names or terms.
fn numbers_of(names: &mut Names, terms: &Terms) -> Result<Option<Vec<u32>>, NoMemory> {
    if names.len() < MANY && terms.len() < MANY as usize {
        Ok(Some(names.intern_all(terms)?))
    } else {
        Ok(None)
    }
}

/// The same in a test, which ends where there are none.
fn numbered<R: Abort>(rt: &R, names: &mut Names, terms: &Terms) -> Vec<u32> {
    numbers_of(names, terms)
        .expect(rt, "enough memory")
        .expect(rt, "many names")
}

/// The numbers of the terms, as three threads look them up. There are none where there are many names or terms.
fn numbers_by_three<R: Threads + Sync>(
    rt: &R,
    names: &mut Names,
    terms: &Terms,
) -> Result<Option<Vec<u32>>, NoMemory> {
    if names.len() < MANY && terms.len() < MANY as usize {
        Ok(Some(names.intern_all_in_threads(rt, 3, terms)?))
    } else {
        Ok(None)
    }
}

/// Whether this number was found.
fn is_number(found: Option<u32>, number: usize) -> bool {
    match found {
        Some(place) => place as usize == number,
        None => false,
    }
}

/// Whether the numbers are 0, 1 and so on.
fn count_up(numbers: &[u32]) -> bool {
    for (place, number) in numbers.iter().enumerate() {
        if *number as usize != place {
            return false;
        }
    }
    true
}

/// Terms, one after another, and the numbers that they get.
static REPEATED: [(Sample, u32); 3] = [
    (Sample::Iri(b"urn:a"), 0),
    (Sample::Iri(b"urn:b"), 1),
    (Sample::Iri(b"urn:a"), 0),
];

/// Terms, and the numbers that they have then.
static FOUND: [(Sample, Option<u32>); 3] = [
    (Sample::Iri(b"urn:b"), Some(1)),
    (Sample::Iri(b"urn:c"), None),
    (Sample::Blank(b"urn:a"), None),
];

#[test]
fn a_repeated_term_keeps_its_number(rt: HostRuntime) {
    let alloc = rt.alloc();
    let mut names = Names::new(alloc);
    for (sample, number) in &REPEATED {
        assert!(rt;
            number_of(&mut names, sample.made(&rt)).expect(&rt, "enough memory") == Some(*number)
        );
    }
    assert!(rt; names.len() == 2);
    assert!(rt; REPEATED[1].0.is(&names.term(1)));
}

#[test]
fn a_term_is_found_only_where_it_is_the_same(rt: HostRuntime) {
    let mut names = Names::new(rt.alloc());
    intern_rows(rt.alloc(), &mut names, &REPEATED).expect(&rt, "enough memory");
    for (sample, place) in &FOUND {
        assert!(rt; names.find(&sample.made(&rt)) == *place);
    }
}

/// The names of two terms, then further terms, and the numbers that these get together.
static FIRST: [Sample; 2] = [Sample::Iri(b"urn:a"), Sample::Iri(b"urn:b")];

static TOGETHER: [Sample; 5] = [
    Sample::Iri(b"urn:c"),
    Sample::Iri(b"urn:a"),
    Sample::Iri(b"urn:c"),
    Sample::Iri(b"urn:d"),
    Sample::Iri(b"urn:b"),
];

/// A list of these terms.
fn list_of(alloc: Global, samples: &[Sample]) -> Result<Terms, NoMemory> {
    let mut terms = Terms::new(alloc);
    for sample in samples {
        terms.push(&sample.lent())?;
    }
    Ok(terms)
}

/// The names of the first two terms.
fn first_names<R: AllocGlobal + Abort>(rt: &R) -> Names {
    let mut names = Names::new(rt.alloc());
    for sample in &FIRST {
        number_of(&mut names, sample.made(rt))
            .expect(rt, "enough memory")
            .expect(rt, "many names");
    }
    names
}

#[test]
fn terms_together_get_the_numbers_that_they_get_one_by_one(rt: HostRuntime) {
    let mut names = first_names(&rt);
    let terms = list_of(rt.alloc(), &TOGETHER).expect(&rt, "enough memory");
    let numbers = numbered(&rt, &mut names, &terms);
    assert!(rt; numbers.as_slice() == [2, 0, 2, 3, 1].as_slice());
    assert!(rt; names.len() == 4);
}

/// Terms whose hashes, where no seed goes before them, are those below. Four of them find their hash taken.
static CROWD: [Sample; 6] = [
    Sample::Plain(b"8225"),
    Sample::Plain(b"968155"),
    Sample::Iri(b"8225"),
    Sample::Plain(b"296672"),
    Sample::Plain(b"378770"),
    Sample::Blank(b"378770"),
];

fn crowd() -> &'static [Sample] {
    &CROWD
}

static HASHES: [u32; 6] = [
    2_137_439_013,
    2_137_439_014,
    2_137_439_013,
    2_137_439_013,
    2_137_439_012,
    2_137_439_012,
];

/// The hash of a term where no seed goes before it: that of its texts by std's fast hasher.
fn hash_of(term: &TermRef<'_>) -> u32 {
    let mut hasher = FoldHasher::default();
    hasher.write(term.first());
    hasher.write(term.second());
    (hasher.finish() >> 33) as u32
}

/// Whether the hashes of the crowd are these.
fn crowds() -> bool {
    for (sample, hash) in CROWD.iter().zip(&HASHES) {
        if hash_of(&sample.lent()) != *hash {
            return false;
        }
    }
    true
}

/// Whether each term is new, and gets its place as its number.
fn are_new(alloc: Global, names: &mut Names, samples: &[Sample]) -> Result<bool, NoMemory> {
    for (place, sample) in samples.iter().enumerate() {
        let term = sample.to_term(alloc)?;
        if names.find(&term).is_some() || !is_number(number_of(names, term)?, place) {
            return Ok(false);
        }
    }
    Ok(true)
}

/// Whether each term has its place as its number.
fn are_found(alloc: Global, names: &Names, samples: &[Sample]) -> Result<bool, NoMemory> {
    for (place, sample) in samples.iter().enumerate() {
        if !is_number(names.find(&sample.to_term(alloc)?), place) {
            return Ok(false);
        }
    }
    Ok(true)
}

/// The crowd is told apart: its terms, which are also in this list, get their places as their numbers.
fn expect_apart<R: AllocGlobal + Abort>(rt: &R, names: &mut Names, terms: &Terms) {
    assert!(rt; are_new(rt.alloc(), names, crowd()).expect(rt, "enough memory"));
    let numbers = numbered(rt, names, terms);
    assert!(rt; numbers.len() == 6 && count_up(&numbers));
    assert!(rt; are_found(rt.alloc(), names, crowd()).expect(rt, "enough memory"));
}

#[test]
fn terms_whose_hashes_crowd_are_told_apart(rt: HostRuntime) {
    let alloc = rt.alloc();
    assert!(rt; crowds());
    let terms = list_of(alloc, crowd()).expect(&rt, "enough memory");
    for mut names in [Names::new(alloc), Names::with_seed(alloc, 7)] {
        expect_apart(&rt, &mut names, &terms);
    }
}

/// The decimal digits of a number, as a literal.
fn digits(alloc: Global, number: u32) -> Result<Term, NoMemory> {
    Ok(Term::Plain(Text::from_bytes(alloc, number.to_string(alloc)?.as_bytes())?))
}

/// The digits of the numbers below this one.
fn digits_below(alloc: Global, count: u32) -> Result<Terms, NoMemory> {
    let mut terms = Terms::new(alloc);
    for number in 0..count {
        terms.push(&TermRef::of(&digits(alloc, number)?))?;
    }
    Ok(terms)
}

/// Whether the digits of each number below this one get that number as they are interned one by one.
fn are_numbered(alloc: Global, names: &mut Names, count: u32) -> Result<bool, NoMemory> {
    for number in 0..count {
        if number_of(names, digits(alloc, number)?)? != Some(number) {
            return Ok(false);
        }
    }
    Ok(true)
}

/// Whether the digits of each number below this one are found to have that number.
fn are_digits_found(alloc: Global, names: &Names, count: u32) -> Result<bool, NoMemory> {
    for number in 0..count {
        if names.find(&digits(alloc, number)?) != Some(number) {
            return Ok(false);
        }
    }
    Ok(true)
}

/// The digits of the numbers below 1400 are found to have those numbers, and those of 1400 are not found.
fn expect_digits<R: AllocGlobal + Abort>(rt: &R, names: &Names) {
    assert!(rt; are_digits_found(rt.alloc(), names, 1400).expect(rt, "enough memory"));
    assert!(rt;
        names
            .find(&digits(rt.alloc(), 1400).expect(rt, "enough memory"))
            .is_none()
    );
}

#[test]
fn many_names_are_numbered_in_order_and_found(rt: HostRuntime) {
    let alloc = rt.alloc();
    let mut names = Names::new(alloc);
    names.expect(100);
    assert!(rt; are_numbered(alloc, &mut names, 700).expect(&rt, "enough memory"));
    let terms = digits_below(alloc, 1400).expect(&rt, "enough memory");
    let numbers = numbered(&rt, &mut names, &terms);
    assert!(rt; numbers.len() == 1400 && names.len() == 1400 && count_up(&numbers));
    expect_digits(&rt, &names);
}

/// So many terms that three threads share them out.
const SHARED_OUT: u32 = 9_000;

/// Three threads give these digits, each standing once in the list, their places as their numbers.
fn expect_in_order<R: Threads + Sync + Abort>(rt: &R, names: &mut Names, terms: &Terms) {
    let numbers = numbers_by_three(rt, names, terms)
        .expect(rt, "enough memory")
        .expect(rt, "many names");
    assert!(rt; numbers.len() == SHARED_OUT as usize && count_up(&numbers));
    assert!(rt; names.len() == SHARED_OUT);
}

#[test]
fn three_threads_give_the_numbers_of_one(rt: HostRuntime) {
    let alloc = rt.alloc();
    let mut names = Names::new(alloc);
    assert!(rt; are_numbered(alloc, &mut names, 700).expect(&rt, "enough memory"));
    let terms = digits_below(alloc, SHARED_OUT).expect(&rt, "enough memory");
    expect_in_order(&rt, &mut names, &terms);
    // All of them are names now.
    expect_in_order(&rt, &mut names, &terms);
}

/// Each sample beside the number of the first that is alike to it.
static ALIKE: [(Sample, u32); 17] = [
    (Sample::Iri(b"urn:a"), 0),
    (Sample::Plain(b"X"), 1),
    (Sample::Plain(b"x"), 1),
    (Sample::Lang(b"x", b"en"), 3),
    (Sample::Lang(b"X", b"en"), 3),
    (Sample::Lang(b"x", b"de"), 5),
    (Sample::Typed(b"X", b"urn:t"), 6),
    (Sample::Typed(b"x", b"urn:t"), 6),
    (Sample::Typed(b"x", b"urn:u"), 8),
    (Sample::Plain(b"Stra\xC3\x9Fe"), 9),
    (Sample::Plain(b"STRASSE"), 9),
    (Sample::Lang(b"strasse", b"de"), 11),
    (Sample::Plain(b"\xFFA"), 12),
    (Sample::Plain(b"\xFFa"), 13),
    (Sample::Iri(b"urn:A"), 14),
    (Sample::Blank(b"x"), 15),
    (Sample::Blank(b"X"), 16),
];

fn alike_terms() -> &'static [(Sample, u32)] {
    &ALIKE
}

/// Interns the terms of the rows.
fn intern_rows(alloc: Global, names: &mut Names, rows: &[(Sample, u32)]) -> Result<(), NoMemory> {
    for (sample, _) in rows {
        let _ = number_of(names, sample.to_term(alloc)?)?;
    }
    Ok(())
}

/// For each name the number of the first that is alike to it, as so many threads find it.
fn alike_numbers<R: Threads + Sync>(
    rt: &R,
    threads: u32,
    names: &Names,
) -> Result<Vec<u32>, NoMemory> {
    names.alike(rt, threads)
}

/// Whether these are the numbers of the rows.
fn are_numbers(numbers: &[u32], rows: &[(Sample, u32)]) -> bool {
    if numbers.len() != rows.len() {
        return false;
    }
    for (number, (_, first)) in numbers.iter().zip(rows) {
        if *number != *first {
            return false;
        }
    }
    true
}

#[test]
fn literals_are_alike_by_kind_datatype_tag_and_folded_form(rt: HostRuntime) {
    let alloc = rt.alloc();
    let mut names = Names::new(alloc);
    intern_rows(alloc, &mut names, alike_terms()).expect(&rt, "enough memory");
    let numbers = alike_numbers(&rt, 1, &names).expect(&rt, "enough memory");
    assert!(rt; are_numbers(&numbers, alike_terms()));
}

/// So many numbers that three threads share out what they are written as.
const WRITTEN: u32 = 4_200;

/// A number behind a letter, as a literal.
fn lettered(alloc: Global, letter: char, number: u32) -> Result<Term, NoMemory> {
    let mut form = String::new(alloc);
    form.push(letter)?;
    form.push_str(&number.to_string(alloc)?)?;
    Ok(Term::Plain(Text::from_bytes(alloc, form.as_bytes())?))
}

/// Each number behind a small letter and then each behind a large one become names.
fn intern_lettered(alloc: Global, names: &mut Names) -> Result<(), NoMemory> {
    for letter in ['a', 'A'] {
        for number in 0..WRITTEN {
            let _ = number_of(names, lettered(alloc, letter, number)?)?;
        }
    }
    Ok(())
}

/// Whether each number behind a letter has that number, whatever the letter's case.
fn are_lettered(numbers: &[u32]) -> bool {
    if numbers.len() != 2 * WRITTEN as usize {
        return false;
    }
    for place in 0..numbers.len() {
        if numbers[place] != place as u32 % WRITTEN {
            return false;
        }
    }
    true
}

#[test]
fn three_threads_find_alike_what_one_does(rt: HostRuntime) {
    let alloc = rt.alloc();
    let mut names = Names::new(alloc);
    intern_lettered(alloc, &mut names).expect(&rt, "enough memory");
    for threads in [1, 3] {
        let numbers = alike_numbers(&rt, threads, &names).expect(&rt, "enough memory");
        assert!(rt; are_lettered(&numbers));
    }
}
