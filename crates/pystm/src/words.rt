//! The words after the program's name.
ghost use Rattle.std.specs.Prelude.{◌≡◌, [], IsUtf8, string_bytes};

use std::alloc::{AllocError, Global};
use std::env::FillError;
use std::rt::Env;

/// How many bytes a word is first thought to have at most.
const FIRST_ROOM: usize = 256;

/// The words after the program's name. A word that is not UTF-8 comes as an empty word.
pub fn read_words<E: Env>(environment: &E, alloc: Global) -> Result<Vec<String>, AllocError> {
    let mut words = Vec::new(alloc);
    for i in 1..usize::MAX {
        match read_word(environment, alloc, i)? {
            Some(bytes) => words.push(text_or_empty(alloc, bytes))?,
            None => break,
        }
    }
    Ok(words)
}

/// The bytes of the word at that place, if there is one. The room is doubled until they fit.
fn read_word<E: Env>(
    environment: &E,
    alloc: Global,
    i: usize,
) -> Result<Option<Vec<u8>>, AllocError> {
    let mut room = FIRST_ROOM;
    for _ in 0..usize::BITS {
        let mut bytes = vec![in alloc; 0u8; room]?;
        match environment.arg(i, &mut bytes) {
            Ok(count) => {
                bytes.truncate(count);
                return Ok(Some(bytes));
            }
            Err(FillError::NotPresent) => return Ok(None),
            Err(FillError::TooLong) => room = room.saturating_mul(2),
        }
    }
    Err(AllocError)
}

/// The text with those bytes, or an empty one where they are not UTF-8.
fn text_or_empty(alloc: Global, bytes: Vec<u8>) -> String
    ensures text { IsUtf8 bytes.items → string_bytes result ≡ bytes.items }
    ensures other { (IsUtf8 bytes.items → ⊥) → string_bytes result ≡ [] }
{
    match String::from_utf8(bytes) {
        Ok(text) => text,
        Err(_) => String::new(alloc),
    }
}

#[cfg(test)]
mod tests {
    use super::*;
    use std::test::Fail;

    /// The words of a process: its name, a lone `-`, a byte that is no text, and a long word.
    struct Given;

    impl Env for Given {
        fn arg(&self, i: usize, buf: &mut [u8]) -> Result<usize, FillError> {
            let long = [b'x'; 1000];
            let word: &[u8] = match i {
                0 => b"pystm",
                1 => b"-",
                2 => b"a\xff",
                3 => &long,
                _ => return Err(FillError::NotPresent),
            };
            if word.len() > buf.len() {
                return Err(FillError::TooLong);
            }
            buf[..word.len()].copy_from_slice(word);
            Ok(word.len())
        }

        fn var(&self, _name: &str, _buf: &mut [u8]) -> Result<usize, FillError> {
            Err(FillError::NotPresent)
        }

        fn var_at(&self, _i: usize, _buf: &mut [u8]) -> Result<usize, FillError> {
            Err(FillError::NotPresent)
        }
    }

    #[test]
    fn reads_all_words_but_the_name(rt: HostRuntime) -> Result<(), Fail> {
        let words = read_words(&Given, rt.alloc())?;
        assert_eq!(rt; words.len(), 3);
        assert!(rt; words[0].as_str() == "-" && words[1].is_empty() && words[2].len() == 1000);
        Ok(())
    }
}
