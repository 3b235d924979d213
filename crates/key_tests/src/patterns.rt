ghost use Rattle.std.specs.Prelude.{◌≡◌, ◌∷◌, [], List, ℕ, IfOk};
ghost use Rattle.gk_base.specs.declared.term.Term.{Term};
ghost use Rattle.key_file.specs.declared.slot.KeySlot.TheVariants.{Entity, Value};

use chase_laws::{Edge, Pattern, Slot};
use fixtures::texts::{ALBUM_KEY, BASE_AND_LINK_KEYS};
use gk_base::{NoMemory, Term, Text};
use key_file::{KeyDef, KeyEdge, KeyFile, KeySlot, compile, is_connected, is_used};
use key_lang::read_keys;
use std::alloc::Global;
use std::process::Abort;
use std::test::Fail;
use term_table::Names;

const EVERY: &[u8] = b"key every <urn:T>\nany _w <urn:W>\nvalue $v\nfolded $f\n\
    ?x <urn:p> _w\n_w <urn:q> $v\n?x <urn:r> $f\n_w <urn:p> \"1\"\nend\n";

/// A pattern: its slots, and its edges with the slot from which each leads, its predicate's number, and the slot to which.
type Shape = (&'static [Slot], &'static [(u8, u32, u8)]);

/// A key file that is compiled behind names.
struct Case {
    about: &'static str,
    keys: &'static [u8],
    /// The names before, and which of them are literals.
    known: &'static [(&'static [u8], bool)],
    /// How many names there are afterwards.
    names: u32,
    patterns: &'static [Shape],
}

static CASES: [Case; 4] = [
    Case {
        about: "keys whose terms are names add none",
        keys: BASE_AND_LINK_KEYS,
        known: &[
            (b"urn:a:0", false),
            (b"http://www.w3.org/1999/02/22-rdf-syntax-ns#type", false),
            (b"urn:T", false),
            (b"urn:b:0", false),
            (b"urn:name", false),
            (b"n0", true),
            (b"urn:code", false),
            (b"c", true),
            (b"urn:a:1", false),
            (b"urn:b:1", false),
            (b"n1", true),
            (b"urn:next", false),
        ],
        names: 12,
        patterns: &[
            (
                &[Slot::Entity(2), Slot::Value, Slot::Value],
                &[(0, 4, 1), (0, 6, 2)],
            ),
            (
                &[Slot::Entity(2), Slot::Entity(2), Slot::Value],
                &[(0, 4, 2), (0, 11, 1)],
            ),
        ],
    },
    Case {
        about: "keys share the numbers of their terms",
        keys: BASE_AND_LINK_KEYS,
        known: &[],
        names: 4,
        patterns: &[
            (
                &[Slot::Entity(0), Slot::Value, Slot::Value],
                &[(0, 1, 1), (0, 2, 2)],
            ),
            (
                &[Slot::Entity(0), Slot::Entity(0), Slot::Value],
                &[(0, 1, 2), (0, 3, 1)],
            ),
        ],
    },
    Case {
        about: "types and constants come before predicates",
        keys: EVERY,
        known: &[],
        names: 6,
        patterns: &[(
            &[
                Slot::Entity(0),
                Slot::Any(1),
                Slot::Value,
                Slot::Folded,
                Slot::Fixed(2),
            ],
            &[(0, 3, 1), (1, 4, 2), (0, 5, 3), (1, 3, 4)],
        )],
    },
    Case {
        about: "a file without keys has no patterns",
        keys: b"",
        known: &[],
        names: 0,
        patterns: &[],
    },
];

fn text(alloc: Global, bytes: &[u8]) -> Result<Text, NoMemory> {
    Text::from_bytes(alloc, bytes)
}

fn iri(alloc: Global, bytes: &[u8]) -> Result<Term, NoMemory> {
    Ok(Term::Iri(text(alloc, bytes)?))
}

/// A literal or an IRI.
fn literal_or_iri(alloc: Global, bytes: &[u8], is_literal: bool) -> Result<Term, NoMemory> {
    if is_literal {
        Ok(Term::Plain(text(alloc, bytes)?))
    } else {
        iri(alloc, bytes)
    }
}

/// Makes a term a name, where the names are few.
fn intern(names: &mut Names, term: Term) -> Result<(), NoMemory> {
    if names.len() < 1000 {
        names.intern(term)?;
    }
    Ok(())
}

/// Names that are these terms, if they are few.
fn names_of(alloc: Global, terms: &[(&[u8], bool)]) -> Result<Names, NoMemory> {
    let mut names = Names::new(alloc);
    for (bytes, is_literal) in terms {
        intern(&mut names, literal_or_iri(alloc, bytes, *is_literal)?)?;
    }
    Ok(names)
}

/// Whether these are the edges.
fn are_edges(edges: &[Edge], wanted: &[(u8, u32, u8)]) -> bool {
    if edges.len() != wanted.len() {
        return false;
    }
    for (edge, (from, pred, to)) in edges.iter().zip(wanted) {
        if edge.from != *from || edge.pred != *pred || edge.to != *to {
            return false;
        }
    }
    true
}

/// Whether these are the patterns of these slots and edges.
fn are_patterns(patterns: &[Pattern], shapes: &[Shape]) -> bool {
    if patterns.len() != shapes.len() {
        return false;
    }
    for (pattern, (slots, edges)) in patterns.iter().zip(shapes) {
        if pattern.slots.as_slice() != *slots || !are_edges(&pattern.edges, edges) {
            return false;
        }
    }
    true
}

/// A function hands the table out, so that no proof looks into it.
fn cases() -> &'static [Case] {
    &CASES
}

/// The patterns of a key file, whose terms become names where they are none.
fn compiled(
    rt: &impl Abort,
    alloc: Global,
    text: &[u8],
    names: &mut Names,
) -> Result<Vec<Pattern>, Fail> {
    let keys = read_keys(alloc, text, 1 << 20)?;
    assert!(rt; names.len() < 1000);
    let _ = keys.keys();
    Ok(compile(alloc, &keys, names)?)
}

#[test]
fn keys_are_compiled_to_patterns(rt: HostRuntime) -> Result<(), Fail> {
    for case in cases() {
        let mut names = names_of(rt.alloc(), case.known)?;
        assert!(rt; names.len() as usize == case.known.len(), "{}", case.about);
        let patterns = compiled(&rt, rt.alloc(), case.keys, &mut names)?;
        assert!(rt; names.len() == case.names, "{}", case.about);
        assert!(rt; are_patterns(&patterns, case.patterns), "{}", case.about);
    }
    Ok(())
}

/// An entity variable with its type.
fn entity(alloc: Global, variable: &[u8], of_type: &[u8]) -> Result<KeySlot, NoMemory>
    ensures { IfOk result (λ s. (x : List ℕ) × (type : Term) × (s ≡ Entity x type)) }
{
    let name = text(alloc, variable)?;
    let of_type = iri(alloc, of_type)?;
    Ok(KeySlot::Entity(name, of_type))
}

/// A value variable.
fn value(alloc: Global, variable: &[u8]) -> Result<KeySlot, NoMemory>
    ensures { IfOk result (λ s. s ≡ Value variable.now) }
{
    Ok(KeySlot::Value(Text::from_bytes(alloc, variable)?))
}

/// `?x` with its type, `$n` and `$c`
fn base_slots(alloc: Global) -> Result<Vec<KeySlot>, NoMemory>
    ensures { IfOk result (λ v. (x : List ℕ) × (type : Term) × (v.items ≡ Entity x type ∷ Value (110 ∷ []) ∷ Value (99 ∷ []) ∷ [])) }
{
    let slots = vec![in alloc;
        entity(alloc, b"x", b"urn:T")?,
        value(alloc, b"n")?,
        value(alloc, b"c")?,
    ]?;
    Ok(slots)
}

/// An edge from `?x` to a slot.
fn base_edge(alloc: Global, pred: &[u8], to: u8) -> Result<KeyEdge, NoMemory>
    ensures { IfOk result (λ e. (e.from ≡ 0) × (e.to ≡ to)) }
{
    Ok(KeyEdge {
        from: 0,
        pred: iri(alloc, pred)?,
        to,
    })
}

/// `key base <urn:T>`, `value $n`, `value $c`, `?x <urn:name> $n`, `?x <urn:code> $c`, `end`
fn base(alloc: Global) -> Result<KeyDef, NoMemory> {
    let slots = base_slots(alloc)?;
    let edges = vec![in alloc;
        base_edge(alloc, b"urn:name", 1)?,
        base_edge(alloc, b"urn:code", 2)?,
    ]?;
    Ok(KeyDef::new(text(alloc, b"base")?, slots, edges))
}

/// Adds a key where there is room for it and its name is new.
fn add(keys: &mut KeyFile, key: KeyDef) -> Result<bool, NoMemory> {
    if keys.len() >= 64 || keys.has_name(key.name.bytes()) {
        return Ok(false);
    }
    keys.push(key)?;
    Ok(true)
}

/// The same with the key `base`.
fn add_base(alloc: Global, keys: &mut KeyFile) -> Result<bool, NoMemory> {
    add(keys, base(alloc)?)
}

#[test]
fn a_file_has_each_name_once(rt: HostRuntime) -> Result<(), Fail> {
    let alloc = rt.alloc();
    assert!(rt; KeyFile::new(alloc).is_empty());
    let mut keys = read_keys(alloc, ALBUM_KEY, 1 << 20)?;
    assert!(rt; add_base(alloc, &mut keys)?);
    assert!(rt; !add_base(alloc, &mut keys)?);
    assert!(rt; keys.len() == 2 && !keys.is_empty());
    Ok(())
}

#[test]
fn a_file_has_the_names_of_its_keys_alone(rt: HostRuntime) -> Result<(), Fail> {
    let mut keys = read_keys(rt.alloc(), ALBUM_KEY, 1 << 20)?;
    assert!(rt; add_base(rt.alloc(), &mut keys)?);
    assert!(rt; !add_base(rt.alloc(), &mut keys)?);
    assert!(rt; keys.has_name(b"album_year") && keys.has_name(b"base"));
    assert!(rt; !keys.has_name(b"album"));
    Ok(())
}

/// Edges between these slots.
fn edges_of(alloc: Global, ends: &[(u8, u8)]) -> Result<Vec<KeyEdge>, NoMemory> {
    let mut edges = Vec::new(alloc);
    for (from, to) in ends {
        edges.push(KeyEdge {
            from: *from,
            pred: iri(alloc, b"urn:p")?,
            to: *to,
        })?;
    }
    Ok(edges)
}

/// So many slots, edges between slots, and whether walks along the edges lead to each of the slots.
static WALKS: [(usize, &[(u8, u8)], bool); 8] = [
    (1, &[], true),
    (2, &[], false),
    (2, &[(1, 0)], true),
    (3, &[(0, 2), (1, 2)], true),
    (5, &[(3, 4), (2, 3), (1, 2), (0, 1)], true),
    (4, &[(0, 1), (2, 3)], false),
    (2, &[(0, 5), (1, 5)], false),
    (
        16,
        &[
            (14, 15),
            (14, 13),
            (12, 13),
            (12, 11),
            (10, 11),
            (10, 9),
            (8, 9),
            (8, 7),
            (6, 7),
            (6, 5),
            (4, 5),
            (4, 3),
            (2, 3),
            (2, 1),
            (0, 1),
        ],
        true,
    ),
];

#[test]
fn walks_pass_edges_both_ways(rt: HostRuntime) -> Result<(), Fail> {
    for (slots, ends, connects) in &WALKS {
        let edges = edges_of(rt.alloc(), ends)?;
        assert!(rt; *slots <= 16);
        assert!(rt; is_connected(*slots, &edges) == *connects, "{ends:?}");
    }
    Ok(())
}

/// Slots, and whether edges from 0 to 1 and from 3 to 1 have them as ends.
static USED: [(usize, bool); 5] = [(0, true), (1, true), (3, true), (2, false), (256, false)];

#[test]
fn a_slot_is_used_at_either_end(rt: HostRuntime) -> Result<(), Fail> {
    let edges = edges_of(rt.alloc(), &[(0, 1), (3, 1)])?;
    for (slot, used) in &USED {
        assert!(rt; is_used(&edges, *slot) == *used, "{slot}");
    }
    Ok(())
}

/// Two keys have the same slots and the same edges.
fn expect_same_parts(rt: &impl Abort, key: &KeyDef, same: &KeyDef) {
    assert!(rt; key.slots.as_slice() == same.slots.as_slice());
    assert!(rt; key.edges.as_slice() == same.edges.as_slice());
}

/// A key has five slots and four edges, of which two each differ.
fn expect_other_parts(rt: &impl Abort, key: &KeyDef) {
    assert!(rt; key.slots.len() == 5 && key.slots[2] != key.slots[3]);
    assert!(rt; key.edges.len() == 4 && key.edges[0] != key.edges[3]);
}

#[test]
fn slots_and_edges_are_compared_by_their_parts(rt: HostRuntime) -> Result<(), Fail> {
    let keys = read_keys(rt.alloc(), EVERY, 1 << 20)?;
    let again = read_keys(rt.alloc(), EVERY, 1 << 20)?;
    assert!(rt; keys.len() == 1 && again.len() == 1);
    for (key, same) in keys.keys().iter().zip(again.keys()) {
        expect_same_parts(&rt, key, same);
        expect_other_parts(&rt, key);
    }
    Ok(())
}
