//! Texts of a program, written as one.
use py_base::Bytes;
use py_code::Texts;
use std::alloc::{AllocError, Global};

/// The texts, each of which ends with a semicolon.
pub fn texts(alloc: Global, joined: &[u8]) -> Result<Texts, AllocError> {
    let mut all = Texts::new(alloc);
    let mut text = Bytes::new(alloc);
    for b in joined {
        if *b == b';' {
            all.push(text)?;
            text = Bytes::new(alloc);
        } else {
            text.push(*b)?;
        }
    }
    Ok(all)
}
