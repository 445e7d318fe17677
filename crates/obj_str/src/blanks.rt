//! Blanks of a text.
ghost use Rattle.std.specs.Prelude.{◌≡◌};
ghost use Rattle.obj_str.specs.Cutting as cutting;
ghost use Rattle.obj_str.specs.Pieces as pieces;

use py_base::split;

/// A space, or one of tab, newline, vertical tab, form feed and carriage return.
fn is_blank(byte: u8) -> bool
    ensures { result ≡ pieces.is_blank byte }
{
    byte == b' ' || (9 <= byte && byte <= 13)
}

/// The text without the blanks at its front.
pub fn without_front(bytes: &[u8]) -> &[u8]
    ensures { result.now ≡ pieces.without_front bytes.now }
{
    let mut rest = bytes;
    'turns: while let Some((byte, more)) = split(rest) {
        if !is_blank(*byte) {
            return rest;
        }
        rest = more;
    }
    rest
}

/// The text without the blanks at its end.
fn without_end(bytes: &[u8]) -> &[u8]
    ensures { result.now ≡ pieces.without_end bytes.now }
{
    let mut rest = bytes;
    'turns: while let Some((byte, front)) = rest.split_last() {
        if !is_blank(*byte) {
            return rest;
        }
        rest = front;
    }
    rest
}

/// The text without the blanks at its two ends.
pub fn strip(bytes: &[u8]) -> &[u8]
    ensures { result.now ≡ pieces.strip bytes.now }
{
    without_end(without_front(bytes))
}

/// How many bytes stand before the first blank.
pub fn word_length(bytes: &[u8]) -> usize
    ensures { result ≡ cutting.word_length bytes.now }
{
    let mut n = 0;
    let mut rest = bytes;
    'turns: while let Some((byte, more)) = split(rest) {
        if is_blank(*byte) {
            return n;
        }
        n += 1;
        rest = more;
    }
    n
}
