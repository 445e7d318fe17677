//! The forms of expressions. In a form `@` and a letter are a hole, which another form fills: `Hole` says which.

use crate::draws::Draws;

/// What may stand in a hole.
#[derive(Clone, Copy, Debug)]
pub(crate) enum Hole {
    /// `@n`: a number, with no sign in front of it that would bind to what stands before.
    Number,
    /// `@t`: a truth value.
    Truth,
    /// `@x`: a string.
    Text,
    /// `@l`: a list of numbers.
    List,
    /// `@v`: any value.
    Value,
    /// `@k`: a number from 1 to 4, written as a digit.
    Digit,
    /// `@e`: the class of an exception, or several of them.
    Fault,
    /// `@r`: a statement that raises, or may.
    Raising,
    /// `@s`: a statement.
    Statement,
    /// `@b`: one statement or more.
    Block,
    /// `@o`: a statement of a loop.
    Looped,
    /// `@f`: a statement of a function.
    Function,
    /// `@c`: a statement that calls what the program defines.
    Call,
    /// `@w`: a statement of a thread.
    Worker,
    /// `@i`: a digit, the same one in all of a form, that no form round it has.
    Level,
}

impl Hole {
    /// The hole of a letter. One that names none is a statement's.
    pub(crate) fn of(letter: u8) -> Hole {
        match letter {
            b'n' => Hole::Number,
            b't' => Hole::Truth,
            b'x' => Hole::Text,
            b'l' => Hole::List,
            b'v' => Hole::Value,
            b'k' => Hole::Digit,
            b'e' => Hole::Fault,
            b'r' => Hole::Raising,
            b'b' => Hole::Block,
            b'o' => Hole::Looped,
            b'f' => Hole::Function,
            b'c' => Hole::Call,
            b'w' => Hole::Worker,
            b'i' => Hole::Level,
            _ => Hole::Statement,
        }
    }

    /// An expression stands in it, or a part of a name.
    pub(crate) fn is_expression(self) -> bool {
        match self {
            Hole::Number | Hole::Truth | Hole::Text | Hole::List => true,
            Hole::Value | Hole::Digit | Hole::Level => true,
            _ => false,
        }
    }
}

/// Small enough that sums of them stay so.
const NUMBERS: [&str; 30] = [
    "a",
    "b",
    "c",
    "@k",
    "@k",
    "(@n + @n) % 1000",
    "(@n - @n) % 1000",
    "(@n * @n) % 1000",
    "(@n + @n * @n) % 97",
    "(@n) / (@n or 1)",
    "(@n) // (@n or 3)",
    "(@n) % (@n or 7)",
    "((@n) & 15) ** @k % 1000",
    "(((@n) & 15) << ((@n) & 3))",
    "((@n) >> @k)",
    "((@n) & (@n))",
    "((@n) | (@n))",
    "((@n) ^ (@n))",
    "(@n if @t else @n)",
    "(-(@n))",
    "(~(@n))",
    "abs(@n)",
    "len(@l)",
    "len(@x)",
    "sum(@l) % 1000",
    "max(@n, @n)",
    "min(@n, @n, 50)",
    "int('@k' + str(abs(@n) % 10))",
    "ord((@x)[:1] or 'z')",
    "(@x).find(@x)",
];

/// Numbers without a hole.
const PLAIN_NUMBERS: [&str; 10] = ["a", "b", "c", "0", "1", "2", "7", "12", "len(xs)", "99"];

const TRUTHS: [&str; 16] = [
    "True",
    "False",
    "@n < @n",
    "@n <= @n < @n",
    "@n == @n",
    "@n != @n",
    "(@t and @t)",
    "(@t or @t)",
    "(not @t)",
    "(@n in @l)",
    "(@n not in @l)",
    "(@x == @x)",
    "(@x < @x)",
    "(@x).startswith(@x)",
    "isinstance(@v, (int, str))",
    "(@l == @l)",
];

/// Truth values without a hole.
const PLAIN_TRUTHS: [&str; 6] = [
    "True",
    "False",
    "a < b",
    "b == c",
    "c in xs",
    "d.has_key(a)",
];

const TEXTS: [&str; 20] = [
    "w",
    "'ab c'",
    "\"it's\"",
    "'x\\ty'",
    "r'\\n'",
    "(@x + @x)[:40]",
    "(@x)[:8] * @k",
    "str(@n)",
    "repr(@v)[:30]",
    "'%d:%s' % (@n, @v)",
    "('%s' % (@n,))",
    "('%d%%' % @n)",
    "(@x).upper()",
    "(@x).lower().strip()",
    "(@x).replace('a', 'bc')",
    "'-'.join((@x).split())",
    "','.join(sorted((@x).split('b')))",
    "(@x)[1:]",
    "(@x)[-@k:@k]",
    "chr(65 + @k)",
];

/// Strings without a hole.
const PLAIN_TEXTS: [&str; 6] = ["w", "''", "'ab'", "'b-a'", "str(a)", "str(b)"];

const LISTS: [&str; 16] = [
    "xs[:]",
    "[]",
    "[@n]",
    "[@n, @n]",
    "[@n, @n, @n,]",
    "range(@k)",
    "range(@k, @n % 9)",
    "list((@n, @n))",
    "list(xrange(@k))",
    "(@l + @l)[:9]",
    "(@l)[:4] * @k",
    "sorted(@l)",
    "(@l)[1:]",
    "(@l)[:-1]",
    "(@l)[-@k:@k]",
    "(@l if @t else @l)",
];

/// Lists without a hole. None of them is `xs` itself, so that no loop goes through what it appends to.
const PLAIN_LISTS: [&str; 5] = ["xs[:]", "[]", "[1, 2]", "[a, 3, b]", "range(3)"];

const VALUES: [&str; 13] = [
    "@n",
    "@n",
    "@t",
    "@x",
    "@l",
    "(@n, @x)",
    "(@v,)",
    "()",
    "[@v, @v]",
    "{@n: @v, @x: @n}",
    "None",
    "u[:@k]",
    "d.get(@n, @v)",
];

/// Values without a hole.
const PLAIN_VALUES: [&str; 8] = ["a", "w", "xs", "u", "None", "(1, 'b')", "[[], ()]", "{}"];

const DIGITS: [&str; 4] = ["1", "2", "3", "4"];

/// The digits of the levels.
const LEVELS: [&str; 10] = ["0", "1", "2", "3", "4", "5", "6", "7", "8", "9"];

/// The digit of a level, which no form round a form of that level has.
fn level_digit(level: u8) -> &'static str {
    match LEVELS.get(level as usize) {
        Some(digit) => *digit,
        None => "",
    }
}

/// A form for a hole of an expression, in a form of that level.
pub(crate) fn expression(draws: &mut Draws, hole: Hole, level: u8) -> &'static str {
    match hole {
        Hole::Level => level_digit(level),
        Hole::Number => draws.one_of(&NUMBERS),
        Hole::Truth => draws.one_of(&TRUTHS),
        Hole::Text => draws.one_of(&TEXTS),
        Hole::List => draws.one_of(&LISTS),
        Hole::Value => draws.one_of(&VALUES),
        _ => draws.one_of(&DIGITS),
    }
}

/// A form without a hole for a hole of an expression. No form has one of `@i` where no hole is filled.
pub(crate) fn plain_expression(draws: &mut Draws, hole: Hole) -> &'static str {
    match hole {
        Hole::Number => draws.one_of(&PLAIN_NUMBERS),
        Hole::Truth => draws.one_of(&PLAIN_TRUTHS),
        Hole::Text => draws.one_of(&PLAIN_TEXTS),
        Hole::List => draws.one_of(&PLAIN_LISTS),
        Hole::Value => draws.one_of(&PLAIN_VALUES),
        _ => draws.one_of(&DIGITS),
    }
}
