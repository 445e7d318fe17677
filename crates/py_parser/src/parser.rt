//! The module of a list of tokens.
ghost use Rattle.py_parser.specs.Parses.{Parses};
ghost use Rattle.py_grammar.specs.Refused.{EndsOnce};

use crate::suite::module;
use py_atoms::ParseError;
use py_grammar::grammar_law;
use py_tokens::Token;
use py_tree::Module;
use std::alloc::Global;

/// The module of these tokens, as the grammar of the language has it (`docs/LANGUAGE.md`, "Grammar"). A module, a block
/// and each statement and expression are nodes, and a module's height, the most nodes of it one in another, is at most
/// `HEIGHT_LIMIT`.
///
/// A list of tokens has one such module at most, and it is the answer wherever there is one. Else the first token with
/// which no such module begins is refused, with its line, which is counted from 1: as `Deep` where a higher module
/// begins so, as `LeftOut` where a module with a construct that the language leaves out begins so, and else as
/// `Unexpected`. `OutOfMemory` says that there was no memory for the tree.
pub fn parse(alloc: Global, tokens: &[Token]) -> Result<Module, ParseError>
    requires ends { EndsOnce tokens.now }
    ensures { Parses tokens.now result }
{
    grammar_law();
    match module(alloc, tokens) {
        Ok((module, _)) => Ok(module),
        Err(error) => Err(error),
    }
}
