//! What is answered for pairs.

use crate::supported::are_supported;
use crate::worked_journals::{ALBUMS, CHAINS, Worked, names};
use chase_laws::{Entry, Pattern};
use fixtures::texts::{ALBUM_AND_ARTIST_PROOF, ALBUM_PROOF, NO_STEPS};
use gk_base::{NoMemory, Text};
use proof_file::put_proof;
use std::alloc::Global;
use std::test::Fail;
use term_table::Names;
use why_pair::{Why, why};

/// What was answered: the text of a proof, and its goal.
#[derive(Drop)]
enum Answer {
    Unfit,
    Apart,
    Why(Vec<u8>, Vec<u32>),
}

/// The text of the proof that was found, and its goal.
fn told(alloc: Global, found: Why) -> Result<Answer, NoMemory> {
    let mut text = Vec::new(alloc);
    put_proof(&mut text, &found.proof)?;
    Ok(Answer::Why(text, found.goal))
}

/// What is answered of a journal over these names, with these keys and their names.
fn answered_of(
    alloc: Global,
    journal: &[Entry],
    names: &Names,
    patterns: &[Pattern],
    key_names: &[Text],
    pair: (u32, u32),
) -> Result<Answer, NoMemory> {
    let (a, b) = pair;
    if !are_supported(alloc, names, patterns, journal)? || key_names.len() != patterns.len() {
        return Ok(Answer::Unfit);
    }
    if a >= names.len() || b >= names.len() {
        return Ok(Answer::Unfit);
    }
    match why(alloc, journal, names, patterns, key_names, a, b)? {
        Some(found) => told(alloc, found),
        None => Ok(Answer::Apart),
    }
}

/// The same over the names of both journals, with this journal.
fn answered_over(
    alloc: Global,
    of: &Worked,
    names: &Names,
    pair: (u32, u32),
) -> Result<Answer, Fail> {
    let patterns = of.patterns(alloc)?;
    let key_names = of.key_names(alloc)?;
    let journal = of.journal(alloc)?;
    Ok(answered_of(alloc, &journal, names, &patterns, &key_names, pair)?)
}

fn answered(alloc: Global, of: &Worked, a: u32, b: u32) -> Result<Answer, Fail> {
    let names = names(alloc)?;
    answered_over(alloc, of, &names, (a, b))
}

/// The first two steps of the proof of the four albums and their artists, with the terms that they need.
const TWO_STEPS: &str = "\
gkey-proof 2
terms 7
<urn:al1>
\"Anthology 2\"
\"1996\"
<urn:al2>
<urn:ar1>
\"The Beatles\"
<urn:ar2>
step album_year
left 1 2 3
right 4 2 3
done
step artist
left 5 1 6
right 7 4 6
by 1 1
done
end 2
";

/// Two entries that lead from a name to another through a third.
const THROUGH_A_THIRD: &str = "\
gkey-proof 2
terms 5
<urn:al1>
\"Anthology 2\"
<urn:al2>
\"Help!\"
<urn:ar1>
step value
left 1 2
right 3 2
done
step value
left 3 4
right 5 4
done
end 2
";

/// Two other entries, of which the second leads back to the third name.
const BACK_TO_A_THIRD: &str = "\
gkey-proof 2
terms 5
<urn:al3>
\"Anthology 2\"
<urn:al4>
<urn:ar2>
\"Help!\"
step value
left 1 2
right 3 2
done
step value
left 4 5
right 3 5
done
end 2
";

/// Two names of the albums, the goal and the text of the proof.
static ALBUM_PAIRS: [(u32, u32, &[u32], &str); 4] = [
    (0, 1, &[1], ALBUM_PROOF),
    (5, 4, &[2], TWO_STEPS),
    (2, 3, &[3], ALBUM_AND_ARTIST_PROOF),
    (0, 0, &[], NO_STEPS),
];

/// The same of five entries, of which two lead through a third name, from either side.
static CHAIN_PAIRS: [(u32, u32, &[u32], &str); 2] = [
    (0, 4, &[1, 2], THROUGH_A_THIRD),
    (5, 2, &[2, 1], BACK_TO_A_THIRD),
];

/// Whether a pair has this goal and this proof.
fn has_answer(
    alloc: Global,
    of: &Worked,
    pair: (u32, u32),
    goal: &[u32],
    text: &str,
) -> Result<bool, Fail> {
    match answered(alloc, of, pair.0, pair.1)? {
        Answer::Why(found, steps) => Ok(
            found.as_slice() == text.as_bytes() && steps.as_slice() == goal,
        ),
        Answer::Unfit | Answer::Apart => Ok(false),
    }
}

#[test]
fn a_pair_has_the_steps_that_it_needs(rt: HostRuntime) -> Result<(), Fail> {
    for (a, b, goal, text) in &ALBUM_PAIRS {
        let has = has_answer(rt.alloc(), &ALBUMS, (*a, *b), goal, text)?;
        assert!(rt; has, "{a} {b}");
    }
    Ok(())
}

#[test]
fn a_pair_may_be_led_through_a_third_name(rt: HostRuntime) -> Result<(), Fail> {
    for (a, b, goal, text) in &CHAIN_PAIRS {
        let has = has_answer(rt.alloc(), &CHAINS, (*a, *b), goal, text)?;
        assert!(rt; has, "{a} {b}");
    }
    Ok(())
}

#[test]
fn names_that_are_not_joined_have_no_answer(rt: HostRuntime) -> Result<(), Fail> {
    let albums = answered(rt.alloc(), &ALBUMS, 0, 2)?;
    assert!(rt; matches!(albums, Answer::Apart));
    let chains = answered(rt.alloc(), &CHAINS, 4, 5)?;
    assert!(rt; matches!(chains, Answer::Apart));
    Ok(())
}
