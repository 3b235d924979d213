use demo_graph::{ClassCounts, count_classes, demo_line, number_of};
use std::alloc::Global;
use std::test::Fail;

#[test]
fn classes_of_two_or_more_are_counted_with_their_members(rt: HostRuntime) -> Result<(), Fail> {
    let cases: [(&[u32], u32, u32); 6] = [
        (&[], 0, 0),
        (&[0, 1, 2], 0, 0),
        (&[5, 5], 1, 2),
        (&[0, 1, 0, 3, 1, 0], 2, 5),
        (&[4294967295, 7, 4294967295, 4294967295], 1, 3),
        (&[2, 2, 2, 2], 1, 4),
    ];
    for (labels, classes, members) in cases.iter() {
        let counts = count_classes(rt.alloc(), labels)?;
        assert_eq!(rt;
            counts,
            ClassCounts {
                classes: *classes,
                members: *members
            }
        );
    }
    Ok(())
}

/// The line with these counts. It stands here for the proof alone, which then does not spell the numbers of the test.
fn line_of(alloc: Global, triples: u64, pairs: u64, counts: ClassCounts) -> Result<Vec<u8>, Fail> {
    Ok(demo_line(alloc, triples, pairs, counts)?)
}

#[test]
fn the_line_has_all_counts(rt: HostRuntime) -> Result<(), Fail> {
    let counts = ClassCounts {
        classes: 1000,
        members: 2000,
    };
    let line = line_of(rt.alloc(), 6000, 1000, counts)?;
    assert_eq!(rt;
        line.as_slice(),
        b"triples 6000 pairs 1000 classes 1000 members 2000\n".as_slice()
    );
    Ok(())
}

#[test]
fn a_number_has_neither_sign_nor_leading_zero(rt: HostRuntime) {
    let spelled: [(&[u8], u32); 3] = [(b"1", 1), (b"64", 64), (b"7", 7)];
    for (word, number) in spelled.iter() {
        assert_eq!(rt; number_of(word, 64), Some(*number));
    }
    let others: [&[u8]; 8] = [b"65", b"0", b"04", b"+4", b"", b"4 ", b"-4", b"\xff"];
    for word in others.iter() {
        assert_eq!(rt; number_of(word, 64), None);
    }
}

#[test]
fn a_number_goes_to_its_limit(rt: HostRuntime) {
    assert_eq!(rt; number_of(b"100000", 100000), Some(100000));
    assert_eq!(rt; number_of(b"100001", 100000), None);
    assert_eq!(rt; number_of(b"4294967297", 100000), None);
}
