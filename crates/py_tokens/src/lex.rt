//! The tokens of a text.
ghost use Rattle.std.specs.Prelude.{◌≡◌, ◌^◌, ◌<◌, length, IfOk};
ghost use Rattle.py_tokens.specs.Characters.{last_line, text_characters};
ghost use Rattle.py_tokens.specs.Layout.{lexed, tokens_of_text};
ghost use Rattle.py_tokens.specs.Stream.{IsStream};
ghost use Rattle.py_tokens.specs.Tokens.{Tokenizes};
ghost use Rattle.py_tokens.specs.Words.{IsWhole};

use crate::character::{Character, text_characters};
use crate::error::TokenError;
use crate::layout::{Mode, finish, lay, push, stopped};
use crate::token::{Place, Token, place_of};
use crate::word::word_at;
use py_base::split;
use std::alloc::Global;

/// The text's last line.
fn last_line(chars: &[Character]) -> u32
    ensures { result ≡ last_line 1 chars.now }
{
    let mut line = 1;
    let mut rest = chars;
    while let Some((c, more)) = split(rest) {
        line = c.line;
        rest = more;
    }
    line
}

/// The tokens of these characters, of a text of this size in bytes.
fn lexed(alloc: Global, size: u32, chars: &[Character]) -> Result<Vec<Token>, TokenError>
    requires { length chars.now < 2 ^ 32 }
    ensures { Tokenizes (λ v. v.items) result (lexed size chars.now) }
{
    let end = Place {
        from: size,
        to: size,
        line: last_line(chars),
    };
    let mut out = Vec::new(alloc);
    let mut stack = Vec::new(alloc);
    push(&mut stack, 0)?;
    let mut mode = Mode::Fresh(0);
    let mut rest = chars;
    for _turn in 0..chars.len() {
        let Some((c, _)) = split(rest) else {
            return finish(mode, stack, out, end);
        };
        match word_at(alloc, size, rest) {
            Ok((w, more)) => {
                match lay(mode, &mut stack, &mut out, w) {
                    Ok(next) => mode = next,
                    Err(e) => return Err(e),
                }
                rest = more;
            }
            Err(e) => return Err(stopped(mode, stack, out, place_of(c), e)),
        }
    }
    finish(mode, stack, out, end)
}

/// The tokens of the text, by its logical lines and the indentation of each: slices of the text in order, in which each
/// Dedent ends a block that an Indent began, and the last token is End. A text has fewer than 2^32 bytes. A text that
/// has no tokens is refused for the earliest place where no rule continues.
pub fn tokens(alloc: Global, text: &[u8]) -> Result<Vec<Token>, TokenError>
    requires { length text.now < 2 ^ 32 }
    ensures exact { Tokenizes (λ v. v.items) result (tokens_of_text text.now) }
    ensures stream { IfOk result (λ v. IsStream (length text.now) 0 0 v.items) }
    ensures whole { IsWhole (length text.now) (text_characters text.now) }
{
    let chars = text_characters(alloc, text)?;
    lexed(alloc, text.len() as u32, chars.as_slice())
}
