//! The canonical text of keys.

ghost use Rattle.std.specs.Prelude.{◌≡◌, ◌++◌, ◌∷◌, [], slice_get, OnOk, OnErr};
ghost use Rattle.std.specs.List.{flat_map};
ghost use Rattle.term_text.specs.Appending.{BeginsWith};
ghost use Rattle.key_lang.specs.CanonicalKeys.{typed_end, declaration_text, node_text, node_at, triple_line, first_line, key_text, keys_text};

use gk_base::{NoMemory, Term, Text};
use key_file::{KeyDef, KeyEdge, KeyFile, KeySlot};
use term_text::put_term;

/// Appends these bytes.
fn put(buf: &mut Vec<u8>, piece: &[u8]) -> Result<(), NoMemory>
    ensures ok { OnOk result (buf.new.items ≡ buf.old.items ++ piece.now) }
    ensures kept { BeginsWith buf.old.items buf.new.items }
{
    buf.extend_from_slice(piece)?;
    Ok(())
}

/// Appends a type at the end of a line.
fn put_typed_end(buf: &mut Vec<u8>, kind: &Term) -> Result<(), NoMemory>
    ensures ok { OnOk result (buf.new.items ≡ buf.old.items ++ typed_end kind.now) }
    ensures kept { BeginsWith buf.old.items buf.new.items }
{
    put(buf, b" ")?;
    put_term(buf, kind)?;
    put(buf, b"\n")
}

/// Appends the line that declares a variable of this type.
fn put_typed(buf: &mut Vec<u8>, begin: &[u8], name: &Text, kind: &Term) -> Result<(), NoMemory>
    ensures ok { OnOk result (buf.new.items ≡ buf.old.items ++ (begin.now ++ (name.now ++ typed_end kind.now))) }
    ensures kept { BeginsWith buf.old.items buf.new.items }
{
    put(buf, begin)?;
    put(buf, name.bytes())?;
    put_typed_end(buf, kind)
}

/// Appends a word, a name and a line end.
fn put_named(buf: &mut Vec<u8>, begin: &[u8], name: &Text) -> Result<(), NoMemory>
    ensures ok { OnOk result (buf.new.items ≡ buf.old.items ++ (begin.now ++ (name.now ++ 0x0A ∷ []))) }
    ensures kept { BeginsWith buf.old.items buf.new.items }
{
    put(buf, begin)?;
    put(buf, name.bytes())?;
    put(buf, b"\n")
}

/// Appends the line that declares a variable; a constant has none.
fn put_declaration(buf: &mut Vec<u8>, slot: &KeySlot) -> Result<(), NoMemory>
    ensures ok { OnOk result (buf.new.items ≡ buf.old.items ++ declaration_text slot.now) }
    ensures kept { BeginsWith buf.old.items buf.new.items }
{
    match slot {
        KeySlot::Entity(name, kind) => put_typed(buf, b"entity ?", name, kind),
        KeySlot::Any(name, kind) => put_typed(buf, b"any _", name, kind),
        KeySlot::Value(name) => put_named(buf, b"value $", name),
        KeySlot::Folded(name) => put_named(buf, b"folded $", name),
        KeySlot::Fixed(_) => Ok(()),
    }
}

/// Appends a sigil and a name.
fn put_variable(buf: &mut Vec<u8>, sigil: u8, name: &Text) -> Result<(), NoMemory>
    ensures ok { OnOk result (buf.new.items ≡ buf.old.items ++ sigil ∷ name.now) }
    ensures kept { BeginsWith buf.old.items buf.new.items }
{
    put(buf, &[sigil])?;
    put(buf, name.bytes())
}

/// Appends a slot as a subject or an object.
fn put_node(buf: &mut Vec<u8>, slot: &KeySlot) -> Result<(), NoMemory>
    ensures ok { OnOk result (buf.new.items ≡ buf.old.items ++ node_text slot.now) }
    ensures kept { BeginsWith buf.old.items buf.new.items }
{
    match slot {
        KeySlot::Entity(name, _) => put_variable(buf, b'?', name),
        KeySlot::Any(name, _) => put_variable(buf, b'_', name),
        KeySlot::Value(name) | KeySlot::Folded(name) => put_variable(buf, b'$', name),
        KeySlot::Fixed(term) => {
            put_term(buf, term)?;
            Ok(())
        }
    }
}

/// Appends the slot with this number as a subject or an object.
fn put_node_at(buf: &mut Vec<u8>, slots: &[KeySlot], place: u8) -> Result<(), NoMemory>
    ensures ok { OnOk result (buf.new.items ≡ buf.old.items ++ node_at slots.now place) }
    ensures kept { BeginsWith buf.old.items buf.new.items }
{
    match slots.get(place as usize) {
        Some(slot) => put_node(buf, slot),
        None => Ok(()),
    }
}

/// Appends the line of a triple.
fn put_triple(buf: &mut Vec<u8>, slots: &[KeySlot], edge: &KeyEdge) -> Result<(), NoMemory>
    ensures ok { OnOk result (buf.new.items ≡ buf.old.items ++ triple_line slots.now edge.now) }
    ensures kept { BeginsWith buf.old.items buf.new.items }
{
    put_node_at(buf, slots, edge.from)?;
    put(buf, b" ")?;
    put_term(buf, &edge.pred)?;
    put(buf, b" ")?;
    put_node_at(buf, slots, edge.to)?;
    put(buf, b"\n")
}

/// Appends the line that begins a key.
fn put_first(buf: &mut Vec<u8>, name: &Text, slots: &[KeySlot]) -> Result<(), NoMemory>
    ensures ok { OnOk result (buf.new.items ≡ buf.old.items ++ first_line name.now (slice_get slots.now 0)) }
    ensures kept { BeginsWith buf.old.items buf.new.items }
{
    match slots.first() {
        Some(KeySlot::Entity(_, kind)) => put_typed(buf, b"key ", name, kind),
        _ => Ok(()),
    }
}

/// Appends the lines that declare these variables.
fn put_declarations(buf: &mut Vec<u8>, slots: &[KeySlot]) -> Result<(), NoMemory>
    ensures ok { OnOk result (buf.new.items ≡ buf.old.items ++ flat_map declaration_text slots.now) }
    ensures kept { BeginsWith buf.old.items buf.new.items }
{
    for slot in slots {
        put_declaration(buf, slot)?;
    }
    Ok(())
}

/// Appends the lines of these triples.
fn put_triples(buf: &mut Vec<u8>, slots: &[KeySlot], edges: &[KeyEdge]) -> Result<(), NoMemory>
    ensures ok { OnOk result (buf.new.items ≡ buf.old.items ++ flat_map (triple_line slots.now) edges.now) }
    ensures kept { BeginsWith buf.old.items buf.new.items }
{
    for edge in edges {
        put_triple(buf, slots, edge)?;
    }
    Ok(())
}

/// Appends the lines of a key.
fn put_key(buf: &mut Vec<u8>, key: &KeyDef) -> Result<(), NoMemory>
    ensures ok { OnOk result (buf.new.items ≡ buf.old.items ++ key_text key.now) }
    ensures kept { BeginsWith buf.old.items buf.new.items }
{
    let slots = key.slots.as_slice();
    put_first(buf, &key.name, slots)?;
    if let Some((_, declared)) = slots.split_first() {
        put_declarations(buf, declared)?;
    }
    put_triples(buf, slots, &key.edges)?;
    put(buf, b"end\n")
}

/// Appends the lines of these keys.
fn append_keys(buf: &mut Vec<u8>, keys: &[KeyDef]) -> Result<(), NoMemory>
    ensures ok { OnOk result (buf.new.items ≡ buf.old.items ++ keys_text keys.now) }
    ensures kept { BeginsWith buf.old.items buf.new.items }
{
    for key in keys {
        put_key(buf, key)?;
    }
    Ok(())
}

/// Appends the canonical text of keys. After `NoMemory` the buffer holds what it held before.
pub fn put_keys(buf: &mut Vec<u8>, keys: &KeyFile) -> Result<(), NoMemory>
    ensures ok { OnOk result (buf.new.items ≡ buf.old.items ++ keys_text keys.now) }
    ensures err { OnErr result (buf.new.items ≡ buf.old.items) }
{
    let before = buf.len();
    let done = append_keys(buf, keys.keys());
    if done.is_err() {
        buf.truncate(before);
    }
    done
}
