//! The graph and the keys of the demo.

ghost use Rattle.std.specs.Prelude.{◌≡◌, ◌≤◌, ◌++◌, IfOk};
ghost use Rattle.std.specs.String.{string_bytes};
ghost use Rattle.demo_graph.specs.DemoTexts.{demo_graph_text, demo_keys_text, type_line, name_line, last_line, a_entity, b_entity};

use gk_base::NoMemory;
use std::alloc::Global;

/// The keys of the demo: one by a name and a code, and one by a name and the entity before.
const KEYS: &[u8] = b"key base <urn:T>\n\
value $n\n\
value $c\n\
?x <urn:name> $n\n\
?x <urn:code> $c\n\
end\n\
key link <urn:T>\n\
entity ?y <urn:T>\n\
value $n\n\
?x <urn:name> $n\n\
?x <urn:next> ?y\n\
end\n";

/// The graph of the demo with `n` pairs of entities, and its keys, as the texts of a graph file and a key file. `n` is from 1
/// to 100,000.
pub fn demo_texts(alloc: Global, n: u32) -> Result<(Vec<u8>, Vec<u8>), NoMemory>
    requires { (1 ≤ n) × (n ≤ 100000) }
    ensures graph { IfOk result (λ texts. texts.0.items ≡ demo_graph_text n) }
    ensures keys { IfOk result (λ texts. texts.1.items ≡ demo_keys_text) }
{
    let mut graph = Vec::new(alloc);
    for number in 0..n {
        graph.extend_from_slice(type_lines(alloc, number)?.as_bytes())?;
        graph.extend_from_slice(name_lines(alloc, number)?.as_bytes())?;
        graph.extend_from_slice(last_lines(alloc, number)?.as_bytes())?;
    }
    Ok((graph, KEYS.to_vec(alloc)?))
}

/// The two lines that give the entities with a number their type.
fn type_lines(alloc: Global, number: u32) -> Result<String, NoMemory>
    ensures { IfOk result (λ lines. string_bytes lines ≡ type_line (a_entity number) ++ type_line (b_entity number)) }
{
    Ok(format!(in alloc;
        "<urn:a:{number}> <http://www.w3.org/1999/02/22-rdf-syntax-ns#type> <urn:T> .\n\
        <urn:b:{number}> <http://www.w3.org/1999/02/22-rdf-syntax-ns#type> <urn:T> .\n"
    )?)
}

/// The two lines that give them their name.
fn name_lines(alloc: Global, number: u32) -> Result<String, NoMemory>
    ensures { IfOk result (λ lines. string_bytes lines ≡ name_line (a_entity number) number ++ name_line (b_entity number) number) }
{
    Ok(format!(in alloc;
        "<urn:a:{number}> <urn:name> \"n{number}\" .\n\
        <urn:b:{number}> <urn:name> \"n{number}\" .\n"
    )?)
}

/// The two lines that lead from them to the entities before, or else to a code.
fn last_lines(alloc: Global, number: u32) -> Result<String, NoMemory>
    ensures { IfOk result (λ lines. string_bytes lines ≡ last_line a_entity number ++ last_line b_entity number) }
{
    match number.checked_sub(1) {
        None => Ok(format!(in alloc;
            "<urn:a:{number}> <urn:code> \"c\" .\n\
            <urn:b:{number}> <urn:code> \"c\" .\n"
        )?),
        Some(before) => Ok(format!(in alloc;
            "<urn:a:{number}> <urn:next> <urn:a:{before}> .\n\
            <urn:b:{number}> <urn:next> <urn:b:{before}> .\n"
        )?),
    }
}
