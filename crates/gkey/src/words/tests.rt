use crate::words::{NoWords, words};
use gk_base::Stop;
use std::env::FillError;
use std::rt::Env;
use std::test::Fail;

/// What a program was called with. Where `fails`, the system says of every buffer that it is too short.
#[derive(Drop)]
struct Call<'a> {
    words: &'a [&'a [u8]],
    fails: bool,
}

impl Env for Call<'_> {
    fn arg(&self, i: usize, buf: &mut [u8]) -> Result<usize, FillError> {
        let Some(word) = self.words.get(i) else {
            return Err(FillError::NotPresent);
        };
        if self.fails || word.len() > buf.len() {
            return Err(FillError::TooLong);
        }
        buf[..word.len()].copy_from_slice(word);
        Ok(word.len())
    }

    fn var(&self, _name: &str, _buf: &mut [u8]) -> Result<usize, FillError> {
        Err(FillError::NotPresent)
    }

    fn var_at(&self, _i: usize, _buf: &mut [u8]) -> Result<usize, FillError> {
        Err(FillError::NotPresent)
    }
}

#[test]
fn words_are_copied_byte_for_byte(rt: HostRuntime) -> Result<(), Fail> {
    let called: [&[u8]; 6] = [b"gkey", b"match", b"\xFF.nt", b"", &[b'k'; 1000], b"\xC3"];
    let copied = words(
        &Call {
            words: &called,
            fails: false,
        },
        rt.alloc(),
    )?;
    assert!(rt; copied.len() == 5);
    for (copy, word) in copied.iter().zip(&called[1..]) {
        assert!(rt; copy.bytes() == *word);
    }
    assert!(rt;
        words(
            &Call {
                words: &[],
                fails: false
            },
            rt.alloc()
        )?
        .is_empty()
    );
    Ok(())
}

#[test]
fn a_call_that_never_gives_the_word_fails(rt: HostRuntime) {
    let called: [&[u8]; 2] = [b"gkey", b"match"];
    let refused = words(
        &Call {
            words: &called,
            fails: true,
        },
        rt.alloc(),
    );
    assert!(rt; matches!(refused, Err(Stop::Fault(NoWords))));
}
