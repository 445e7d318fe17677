//! Classes of characters, and the longest run of one.
ghost use Rattle.std.specs.Prelude.{◌≡◌, ◌≤◌, length};
ghost use Rattle.py_tokens.specs.Classes.{base_of, holds, in_class, next_is, run_len};

use crate::character::Character;
use py_base::split;

/// The base of an integer's digits.
#[derive(Clone, Copy, Debug, Drop)]
pub enum Base {
    Two,
    Eight,
    Ten,
    Sixteen,
}

/// A class of characters.
#[derive(Clone, Copy, Debug, Drop)]
pub enum Class {
    /// This byte.
    Byte(u8),
    /// This lower-case letter, in either case.
    Letter(u8),
    /// A digit of this base.
    Digit(Base),
    /// What a name begins with: a letter or `_`.
    NameStart,
    /// What a name goes on with: a letter, `_` or a decimal digit.
    Name,
    /// What separates tokens of one line: space, tab and form feed.
    Blank,
    /// Anything but a line end.
    InLine,
    /// `+` and `-`.
    Sign,
    /// `'` and `"`.
    Quote,
}

impl Base {
    pub fn value(self) -> u8
        ensures within { 2 ≤ result }
        ensures above { result ≤ 16 }
        ensures value { result ≡ base_of self }
    {
        match self {
            Base::Two => 2,
            Base::Eight => 8,
            Base::Ten => 10,
            Base::Sixteen => 16,
        }
    }
}

fn is_name_start(b: u8) -> bool
    ensures { result ≡ holds Class.NameStart b }
{
    b.is_ascii_alphabetic() || b == b'_'
}

/// The byte is of the class.
pub fn holds(class: Class, b: u8) -> bool
    ensures { result ≡ holds class b }
{
    match class {
        Class::Byte(x) => b == x,
        Class::Letter(x) => b == x || b as u32 + 32 == x as u32,
        Class::Digit(base) => char::from(b).is_digit(base.value() as u32),
        Class::NameStart => is_name_start(b),
        Class::Name => is_name_start(b) || char::from(b).is_digit(10),
        Class::Blank => b == b' ' || b == b'\t' || b == 12,
        Class::InLine => b != b'\n',
        Class::Sign => b == b'+' || b == b'-',
        Class::Quote => b == b'\'' || b == b'"',
    }
}

/// There is a next character, and it is of the class.
pub fn next_is(class: Class, chars: &[Character]) -> bool
    ensures { result ≡ next_is class chars.now }
{
    match split(chars) {
        Some((c, _)) => holds(class, c.byte),
        None => false,
    }
}

/// How many characters of the class stand at the front.
pub fn run_len(class: Class, chars: &[Character]) -> usize
    ensures value { result ≡ run_len class chars.now }
    ensures within { result ≤ length chars.now }
{
    let mut len = 0;
    let mut rest = chars;
    while let Some((c, more)) = split(rest) {
        if !holds(class, c.byte) {
            return len;
        }
        len += 1;
        rest = more;
    }
    len
}
