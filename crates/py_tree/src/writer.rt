//! What is written so far, and where the pen stands.
#![tactic(auto, unfolding(crate::specs::inner::Page::put))]

ghost use Rattle.std.specs.Prelude.{◌≡◌, ℕ, ◌-◌, List, [], ◌∷◌, ◌++◌, true, map, replicate, OnOk};
ghost use Rattle.py_tokens.specs.Tables.{keywords, operators};
ghost use Rattle.py_tokens.specs.declared.token.TokenKind.TheVariants as k;
ghost use Rattle.py_tree.specs.Lexeme.{lexeme};
ghost use Rattle.py_tree.specs.Writing.{word_of, joints, gap};
ghost use Rattle.py_tree.specs.inner.Page.{pen_of, with_word, put};

use py_base::{Bytes, NoMemory};
use py_text::{print_int, repr_bytes};
use py_tokens::keyword::KEYWORDS;
use py_tokens::operator::OPERATORS;
use std::alloc::{AllocError, Global};

/// A text that is being written. The pen stands on a line, within so many blocks, and the line may have nothing yet.
#[derive(Debug, Drop)]
pub struct Writer {
    pub alloc: Global,
    pub text: Bytes,
    pub line: u64,
    pub depth: u64,
    pub fresh: bool,
}

/// The first word of the table with this number; none has no bytes.
fn word_of(mut table: &[(&'static [u8], u8)], number: u8) -> &'static [u8]
    ensures { result.now ≡ word_of (map (λ w. (w.0.now, w.1)) table.entry.now) number }
{
    while let [entry, rest @ ..] = table {
        if entry.1 == number {
            return entry.0;
        }
        table = rest;
    }
    b""
}

fn keyword_text(number: u8) -> &'static [u8]
    ensures { result.now ≡ word_of keywords number }
{
    word_of(&KEYWORDS, number)
}

fn operator_text(number: u8) -> &'static [u8]
    ensures { result.now ≡ word_of operators number }
{
    word_of(&OPERATORS, number)
}

/// The byte so many times.
fn push_all(text: &mut Bytes, byte: u8, n: u64) -> Result<(), NoMemory>
    ensures { OnOk result (text.new ≡ text.old ++ replicate n byte) }
{
    'times: for _ in 0..n {
        text.push(byte)?;
    }
    Ok(())
}

/// So many line ends after backslashes.
fn push_joints(text: &mut Bytes, n: u64) -> Result<(), NoMemory>
    ensures { OnOk result (text.new ≡ text.old ++ joints n) }
{
    'times: for _ in 0..n {
        text.push(b'\\')?;
        text.push(b'\n')?;
    }
    Ok(())
}

impl Writer {
    /// Before a text's first line.
    pub fn new(alloc: Global) -> Writer
        ensures { result ≡ record { alloc = alloc; text = []; line = 1; depth = 0; fresh = true } }
    {
        Writer {
            alloc,
            text: Bytes::new(alloc),
            line: 1,
            depth: 0,
            fresh: true,
        }
    }

    /// What leads to a word on this line.
    fn gap(&mut self, line: u64) -> Result<(), NoMemory>
        ensures { OnOk result (self.new ≡ record self.old { text = self.old.text ++ gap (pen_of self.old) line }) }
    {
        let lines = line.saturating_sub(self.line);
        if self.fresh {
            push_all(&mut self.text, b'\n', lines)?;
            push_all(&mut self.text, b' ', self.depth)
        } else {
            push_joints(&mut self.text, lines)
        }
    }

    /// A word of these bytes on this line.
    fn word(&mut self, line: u32, bytes: &[u8]) -> Result<(), NoMemory>
        ensures { OnOk result (self.new ≡ with_word self.old line bytes.now) }
    {
        self.gap(u64::from(line))?;
        self.text.extend_from_slice(bytes)?;
        self.text.push(b' ')?;
        self.line = u64::from(line);
        self.fresh = false;
        Ok(())
    }

    pub fn name(&mut self, line: u32, name: &[u8]) -> Result<(), NoMemory>
        ensures { OnOk result (self.new ≡ put self.old (lexeme (k.Name name.now) line)) }
    {
        self.word(line, name)
    }

    pub fn keyword(&mut self, line: u32, number: u8) -> Result<(), NoMemory>
        ensures { OnOk result (self.new ≡ put self.old (lexeme (k.Keyword number) line)) }
    {
        self.word(line, keyword_text(number))
    }

    pub fn operator(&mut self, line: u32, number: u8) -> Result<(), NoMemory>
        ensures { OnOk result (self.new ≡ put self.old (lexeme (k.Op number) line)) }
    {
        self.word(line, operator_text(number))
    }

    pub fn int(&mut self, line: u32, n: i64) -> Result<(), NoMemory>
        ensures { OnOk result (self.new ≡ put self.old (lexeme (k.Int n) line)) }
    {
        let digits = print_int(self.alloc, n)?;
        self.word(line, digits.as_slice())
    }

    pub fn string(&mut self, line: u32, bytes: &[u8]) -> Result<(), NoMemory>
        ensures { OnOk result (self.new ≡ put self.old (lexeme (k.Str bytes.now) line)) }
    {
        let text = repr_bytes(self.alloc, bytes)?;
        self.word(line, text.as_slice())
    }

    /// The end of a logical line. A text of more lines than can be counted has no memory.
    pub fn newline(&mut self) -> Result<(), NoMemory>
        ensures { OnOk result (self.new ≡ put self.old (lexeme k.Newline 0)) }
    {
        let Some(line) = self.line.checked_add(1) else {
            return Err(AllocError);
        };
        self.text.push(b'\n')?;
        self.line = line;
        self.fresh = true;
        Ok(())
    }

    /// Into a block. Blocks within one another that can't be counted have no memory.
    pub fn indent(&mut self) -> Result<(), NoMemory>
        ensures { OnOk result (self.new ≡ put self.old (lexeme k.Indent 0)) }
    {
        let Some(depth) = self.depth.checked_add(1) else {
            return Err(AllocError);
        };
        self.depth = depth;
        Ok(())
    }

    /// Out of a block.
    pub fn dedent(&mut self)
        ensures { self.new ≡ put self.old (lexeme k.Dedent 0) }
    {
        self.depth = self.depth.saturating_sub(1);
    }

    /// What is written.
    pub fn into_text(self) -> Bytes
        ensures { result ≡ self.text }
    {
        let Writer { text, .. } = self;
        text
    }
}
