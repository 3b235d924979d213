use demo_graph::demo_texts;
use std::alloc::Global;
use std::test::Fail;

const GRAPH_OF_ONE: &[u8] =
    b"<urn:a:0> <http://www.w3.org/1999/02/22-rdf-syntax-ns#type> <urn:T> .\n\
<urn:b:0> <http://www.w3.org/1999/02/22-rdf-syntax-ns#type> <urn:T> .\n\
<urn:a:0> <urn:name> \"n0\" .\n\
<urn:b:0> <urn:name> \"n0\" .\n\
<urn:a:0> <urn:code> \"c\" .\n\
<urn:b:0> <urn:code> \"c\" .\n";

const NEXT_OF_TWO: &[u8] =
    b"<urn:a:1> <http://www.w3.org/1999/02/22-rdf-syntax-ns#type> <urn:T> .\n\
<urn:b:1> <http://www.w3.org/1999/02/22-rdf-syntax-ns#type> <urn:T> .\n\
<urn:a:1> <urn:name> \"n1\" .\n\
<urn:b:1> <urn:name> \"n1\" .\n\
<urn:a:1> <urn:next> <urn:a:0> .\n\
<urn:b:1> <urn:next> <urn:b:0> .\n";

const KEYS: &[u8] =
    b"key base <urn:T>\nvalue $n\nvalue $c\n?x <urn:name> $n\n?x <urn:code> $c\nend\n\
key link <urn:T>\nentity ?y <urn:T>\nvalue $n\n?x <urn:name> $n\n?x <urn:next> ?y\nend\n";

#[test]
fn texts_of_one(rt: HostRuntime) -> Result<(), Fail> {
    let (graph, keys) = demo_texts(rt.alloc(), 1)?;
    assert_eq!(rt; graph.as_slice(), GRAPH_OF_ONE);
    assert_eq!(rt; keys.as_slice(), KEYS);
    Ok(())
}

/// The graph of two pairs: that of one, and the lines of the next pair.
fn graph_of_two(alloc: Global) -> Result<Vec<u8>, Fail> {
    let mut graph = GRAPH_OF_ONE.to_vec(alloc)?;
    graph.extend_from_slice(NEXT_OF_TWO)?;
    Ok(graph)
}

#[test]
fn texts_of_two(rt: HostRuntime) -> Result<(), Fail> {
    let of_two = graph_of_two(rt.alloc())?;
    let (graph, keys) = demo_texts(rt.alloc(), 2)?;
    assert_eq!(rt; graph.as_slice(), of_two.as_slice());
    assert_eq!(rt; keys.as_slice(), KEYS);
    Ok(())
}
