//! From a text to its verified program.
ghost use Rattle.std.specs.Prelude.{◌≡◌, ◌<◌, ◌^◌, ◌⊎◌, List, ℕ, length, Ok, IfOk, IfErr};
ghost use Rattle.py_base.specs.declared.refusal.Refusal.{Refusal as Reason};
ghost use Rattle.py_tokens.specs.Layout.{tokens_of_text};
ghost use Rattle.py_grammar.specs.Refused.{EndsOnce};
ghost use Rattle.py_code.specs.Right.{IsRightProgram};
ghost use Rattle.py_code.specs.declared.program.Program.{Program as Code};
ghost use Rattle.front_laws.specs.Trees.{IsTree};
ghost use Rattle.front_end.specs.TextCode.{HasCode, HasScopes, IsFault, IsRefused};

use compiler_laws::right_law;
use front_laws::{round_law, tree_law};
use py_base::Refusal;
use py_code::Program;
use py_compile::{CompileError, compile};
use py_grammar::ends_law;
use py_names::{NameFault, Scopes, resolve};
use py_parser::{ParseError, parse};
use py_tokens::{Token, TokenError, tokens};
use py_tree::Module;
use py_verify::{Verified, verify};
use std::alloc::Global;
use thiserror::Error;

/// Why `compile_text` gives no program.
#[derive(Clone, Copy, Debug, Drop, Error, PartialEq, Eq)]
pub enum TextFault {
    /// The text is none of the language, or its program is too large: the first refusal in the order tokens, tree,
    /// scopes, code, with the line, from 1, of the earliest place.
    #[error("the text is refused")]
    Refused(Refusal),
    /// There was no memory for the program, or on the way to it.
    #[error("out of memory")]
    OutOfMemory,
}

/// The tokens of a text, or why it has none.
fn tokens_of(alloc: Global, text: &[u8]) -> Result<Vec<Token>, TextFault>
    requires { length text.now < 2 ^ 32 }
    ensures tokens { IfOk result (λ found. (tokens_of_text text.now ≡ Ok found.items) × EndsOnce found.items) }
    ensures fault { IfErr result (λ fault. IsFault text.now fault) }
{
    ends_law();
    match tokens(alloc, text) {
        Ok(found) => Ok(found),
        Err(TokenError::Refused(refusal)) => Err(TextFault::Refused(refusal)),
        Err(TokenError::OutOfMemory) => Err(TextFault::OutOfMemory),
    }
}

/// The tree of a text, or why it has none.
fn tree_of(alloc: Global, text: &[u8]) -> Result<Module, TextFault>
    requires { length text.now < 2 ^ 32 }
    ensures tree { IfOk result (λ tree. IsTree text.now tree) }
    ensures fault { IfErr result (λ fault. IsFault text.now fault) }
{
    let found = tokens_of(alloc, text)?;
    match parse(alloc, found.as_slice()) {
        Ok(tree) => Ok(tree),
        Err(ParseError::Refused(refusal)) => Err(TextFault::Refused(refusal)),
        Err(ParseError::OutOfMemory) => Err(TextFault::OutOfMemory),
    }
}

/// The scopes of a text's tree, or why it has none.
fn scopes_of(alloc: Global, text: &[u8], tree: &Module) -> Result<Scopes, TextFault>
    requires { IsTree text.now tree.now }
    ensures scopes { IfOk result (λ scopes. HasScopes text.now tree.now scopes) }
    ensures fault { IfErr result (λ fault. IsFault text.now fault) }
{
    match resolve(alloc, tree) {
        Ok(scopes) => Ok(scopes),
        Err(NameFault::Refused(refusal)) => Err(TextFault::Refused(refusal)),
        Err(NameFault::OutOfMemory) => Err(TextFault::OutOfMemory),
    }
}

/// The program of a text's tree with its scopes, or why it has none.
fn program_of(
    alloc: Global,
    text: &[u8],
    tree: &Module,
    scopes: &Scopes,
) -> Result<Program, TextFault>
    requires { HasScopes text.now tree.now scopes.now }
    ensures program { IfOk result (λ program. HasCode text.now program) }
    ensures right { IfOk result (λ program. IsRightProgram program) }
    ensures fault { IfErr result (λ fault. IsFault text.now fault) }
{
    right_law();
    match compile(alloc, tree, scopes) {
        Ok(program) => Ok(program),
        Err(CompileError::Refused(refusal)) => Err(TextFault::Refused(refusal)),
        Err(CompileError::OutOfMemory) => Err(TextFault::OutOfMemory),
    }
}

/// The program of a text, ready for a machine: its tokens, their tree, the scopes of its bodies and the code of each,
/// by `docs/LANGUAGE.md`, and then tested by `verify`, which refuses none of them.
pub fn compile_text(alloc: Global, text: &[u8]) -> Result<Verified, TextFault>
    requires { length text.now < 2 ^ 32 }
    ensures program { IfOk result (λ verified. HasCode text.now verified) }
    ensures right { IfOk result (λ verified. IsRightProgram verified) }
    ensures fault { IfErr result (λ fault. IsFault text.now fault) }
{
    let tree = tree_of(alloc, text)?;
    let scopes = scopes_of(alloc, text, &tree)?;
    let program = program_of(alloc, text, &tree, &scopes)?;
    match verify(alloc, program) {
        Ok(Some(verified)) => Ok(verified),
        Ok(None) => unreachable!(),
        Err(_) => Err(TextFault::OutOfMemory),
    }
}

/// A text has a program or is refused, and not both; and it has one program at most and one refusal at most. A call
/// does nothing, and gives its caller's proof these facts.
pub fn text_law()
    ensures some { (text : List ℕ) → ((p : Code) × HasCode text p) ⊎ ((r : Reason) × IsRefused text r) }
    ensures program { (text : List ℕ) (p q : Code) → HasCode text p → HasCode text q → p ≡ q }
    ensures none { (text : List ℕ) (p : Code) (r : Reason) → HasCode text p → IsRefused text r → ⊥ }
    ensures refusal { (text : List ℕ) (r s : Reason) → IsRefused text r → IsRefused text s → r ≡ s }
{
    tree_law();
    round_law();
    ends_law();
}
