//! What tests of texts share: a row's text, and its tree.
use py_base::NoMemory;
use py_grammar::ends_law;
use py_parser::parse;
use py_tokens::tokens;
use py_tree::Module;
use std::alloc::Global;

/// The text of this part of a row, in which `$` is a line end.
pub fn text_of(alloc: Global, part: &str) -> Result<Vec<u8>, NoMemory> {
    let mut text = Vec::new(alloc);
    for b in part.as_bytes() {
        text.push(if *b == b'$' { b'\n' } else { *b })?;
    }
    Ok(text)
}

/// The tree of a text, or None where it is too long or has none.
pub fn tree_of(alloc: Global, text: &[u8]) -> Option<Module> {
    if text.len() > 100_000 {
        return None;
    }
    let Ok(found) = tokens(alloc, text) else {
        return None;
    };
    ends_law();
    match parse(alloc, found.as_slice()) {
        Ok(tree) => Some(tree),
        Err(_) => None,
    }
}
