//! Texts with their tokens, and texts that are refused, by hand from Python 2.7's rules and those of the profile.
use py_base::{Bytes, NoMemory, Refusal};
use py_text::repr_bytes;
use py_tokens::{Other, Token, TokenError, TokenKind, keyword, operator, tokens};
use std::alloc::Global;

fn push_bytes(out: &mut Bytes, bytes: &[u8]) -> Result<(), NoMemory> {
    for b in bytes {
        out.push(*b)?;
    }
    Ok(())
}

fn push_word(out: &mut Bytes, table: &[(&[u8], u8)], n: u8) -> Result<(), NoMemory> {
    match table.get(n as usize) {
        Some(word) => push_bytes(out, word.0),
        None => Ok(()),
    }
}

/// A name as it is, `<keyword>`, `#integer`, a string as `repr` writes it, an operator, and the others by their names.
fn push_kind(alloc: Global, out: &mut Bytes, kind: &TokenKind) -> Result<(), NoMemory> {
    match kind {
        TokenKind::Name(name) => push_bytes(out, name.as_slice()),
        TokenKind::Keyword(n) => {
            out.push(b'<')?;
            push_word(out, &keyword::KEYWORDS, *n)?;
            out.push(b'>')
        }
        TokenKind::Int(n) => {
            let n = *n;
            push_bytes(out, format!(in alloc; "#{n}")?.as_bytes())
        }
        TokenKind::Str(text) => push_bytes(out, repr_bytes(alloc, text.as_slice())?.as_slice()),
        TokenKind::Op(n) => push_word(out, &operator::OPERATORS, *n),
        TokenKind::Newline => push_bytes(out, b"NL"),
        TokenKind::Indent => push_bytes(out, b"IN"),
        TokenKind::Dedent => push_bytes(out, b"DE"),
        TokenKind::End => push_bytes(out, b"END"),
        TokenKind::Other(Other::Float) => push_bytes(out, b"FLOAT"),
        TokenKind::Other(Other::Long) => push_bytes(out, b"LONG"),
        TokenKind::Other(Other::Unicode) => push_bytes(out, b"UNICODE"),
    }
}

/// The tokens in one line, each line's number before its first token.
fn shown(alloc: Global, tokens: &[Token]) -> Result<Bytes, NoMemory> {
    let mut out = Bytes::new(alloc);
    let mut line = 0;
    for t in tokens {
        if line != 0 {
            out.push(b' ')?;
        }
        if t.line != line {
            line = t.line;
            push_bytes(&mut out, format!(in alloc; "{line}: ")?.as_bytes())?;
        }
        push_kind(alloc, &mut out, &t.kind)?;
    }
    Ok(out)
}

fn is_shown(alloc: Global, text: &[u8], want: &[u8]) -> bool {
    if text.len() > 1000 {
        return false;
    }
    match tokens(alloc, text) {
        Ok(found) => match shown(alloc, found.as_slice()) {
            Ok(out) => out.as_slice() == want,
            Err(_) => false,
        },
        Err(_) => false,
    }
}

fn is_refused(alloc: Global, text: &[u8], number: u8, line: u32) -> bool {
    if text.len() > 1000 {
        return false;
    }
    match tokens(alloc, text) {
        Err(TokenError::Refused(refusal)) => refusal.number() == number && refusal.line() == line,
        _ => false,
    }
}

/// Line ends, indentation, brackets and joined lines.
const LINES: [(&[u8], &[u8]); 25] = [
    (b"", b"1: END"),
    (b"\n", b"1: END"),
    (b"\n\n# c\n", b"3: END"),
    (b"x", b"1: x NL END"),
    (b"x\n", b"1: x NL END"),
    (b"x\r\ny\r", b"1: x NL 2: y NL END"),
    (b"\xef\xbb\xbfx", b"1: x NL END"),
    (b"x = 1\n", b"1: x = #1 NL END"),
    (b"if x:\n  y\n", b"1: <if> x : NL 2: IN y NL DE END"),
    (
        b"if x:\n  y\nz\n",
        b"1: <if> x : NL 2: IN y NL 3: DE z NL END",
    ),
    (
        b"if x:\n\ty\n        z\n",
        b"1: <if> x : NL 2: IN y NL 3: z NL DE END",
    ),
    (
        b"if x:\n  if y:\n    z\nw",
        b"1: <if> x : NL 2: IN <if> y : NL 3: IN z NL 4: DE DE w NL END",
    ),
    (
        b"if x:\n  y\n\n  # c\n\n  z\n",
        b"1: <if> x : NL 2: IN y NL 6: z NL DE END",
    ),
    (
        b"if x:\n  y\n# c\n  z\n",
        b"1: <if> x : NL 2: IN y NL 4: z NL DE END",
    ),
    (b"(1,\n 2)\n", b"1: ( #1 , 2: #2 ) NL END"),
    (b"[\n\n# c\n1]\n", b"1: [ 4: #1 ] NL END"),
    (b"{\n}\n", b"1: { 2: } NL END"),
    (b"(]\nx\n", b"1: ( ] NL 2: x NL END"),
    (b")\nx\n", b"1: ) NL 2: x NL END"),
    (b"x = \\\n  1\n", b"1: x = 2: #1 NL END"),
    (b"x \\\r\n+ y", b"1: x 2: + y NL END"),
    (b"  x\n", b"1: IN x NL DE END"),
    (b"\x0cx\n", b"1: x NL END"),
    (b"  \x0cx\n", b"1: x NL END"),
    (b"x\t=\x0c1\n", b"1: x = #1 NL END"),
];

#[test]
fn gives_lines(rt: HostRuntime) {
    for (text, want) in LINES {
        assert!(rt; is_shown(rt.alloc(), text, want), "{text:?}");
    }
}

/// Lines that begin with a joint: their indentation stands on its line.
const JOINTS: [(&[u8], &[u8]); 9] = [
    (
        b"if 1:\n  \\\n pass\n",
        b"1: <if> #1 : NL 2: IN 3: <pass> NL DE END",
    ),
    (
        b"if x:\n  \\\n\\\n        y\n",
        b"1: <if> x : NL 2: IN 4: y NL DE END",
    ),
    (
        b"if x:\n\n  # c\n\t\\\r\ny\n        z\n",
        b"1: <if> x : NL 4: IN 5: y NL 6: z NL DE END",
    ),
    (
        b"if x:\n  y\n\\\nz\n",
        b"1: <if> x : NL 2: IN y NL 3: DE 4: z NL END",
    ),
    (
        b"if x:\n  if y:\n    z\n\\\n\\\nw\n",
        b"1: <if> x : NL 2: IN <if> y : NL 3: IN z NL 4: DE DE 6: w NL END",
    ),
    (
        b"if x:\n  y\n  \\\n    z\n",
        b"1: <if> x : NL 2: IN y NL 4: z NL DE END",
    ),
    (
        b"if x:\n  '''\n'''\n\\\ny\n",
        b"1: <if> x : NL 2: IN '\\n' 3: NL 4: DE 5: y NL END",
    ),
    (
        b"if x:\n  (\n)\n\\\ny\n",
        b"1: <if> x : NL 2: IN ( 3: ) NL 4: DE 5: y NL END",
    ),
    (b"if x: \\\n  y\n", b"1: <if> x : 2: y NL END"),
];

#[test]
fn gives_indentation_behind_joints(rt: HostRuntime) {
    for (text, want) in JOINTS {
        assert!(rt; is_shown(rt.alloc(), text, want), "{text:?}");
    }
}

/// Numbers.
const NUMBERS: [(&[u8], &[u8]); 12] = [
    (b"0 7 10 00 017\n", b"1: #0 #7 #10 #0 #15 NL END"),
    (
        b"0x1F 0Xff 0o17 0O7 0b101 0B1\n",
        b"1: #31 #255 #15 #7 #5 #1 NL END",
    ),
    (b"9223372036854775807\n", b"1: #9223372036854775807 NL END"),
    (
        b"0x7fffffffffffffff 0777777777777777777777\n",
        b"1: #9223372036854775807 #9223372036854775807 NL END",
    ),
    (
        b"1.5 1. .5 1e5 1E-5 1.e+5 .5e1 1j 1.5J 1e5j 09.5 09j 08e1\n",
        b"1: FLOAT FLOAT FLOAT FLOAT FLOAT FLOAT FLOAT FLOAT FLOAT FLOAT FLOAT FLOAT FLOAT NL END",
    ),
    (
        b"1L 0xFFl 0L 017L 99999999999999999999L\n",
        b"1: LONG LONG LONG LONG LONG NL END",
    ),
    (b"0x1j\n", b"1: #1 j NL END"),
    (b"1e 1e+\n", b"1: #1 e #1 e + NL END"),
    (b"0b12 0o78\n", b"1: #1 #2 #7 #8 NL END"),
    (b"1..2\n", b"1: FLOAT FLOAT NL END"),
    (b"a.b 1.real\n", b"1: a . b FLOAT real NL END"),
    (b"x.5\n", b"1: x FLOAT NL END"),
];

#[test]
fn gives_numbers(rt: HostRuntime) {
    for (text, want) in NUMBERS {
        assert!(rt; is_shown(rt.alloc(), text, want), "{text:?}");
    }
}

/// String literals.
const STRINGS: [(&[u8], &[u8]); 16] = [
    (
        b"'a' \"b\" '''c''' \"\"\"d\"\"\"\n",
        b"1: 'a' 'b' 'c' 'd' NL END",
    ),
    (b"'' \"\" '''''' \"\"\"\"\"\"\n", b"1: '' '' '' '' NL END"),
    (b"'it\\'s' \"q\\\"q\"", b"1: \"it's\" 'q\"q' NL END"),
    (b"'a\\nb\\t\\\\'\n", b"1: 'a\\nb\\t\\\\' NL END"),
    (b"'\\x41\\101\\0'\n", b"1: 'AA\\x00' NL END"),
    (b"'\\q\\8'\n", b"1: '\\\\q\\\\8' NL END"),
    (b"'a\\\nb' c\n", b"1: 'ab' 2: c NL END"),
    (b"'''a\nb''' c\n", b"1: 'a\\nb' 2: c NL END"),
    (b"'''a\r\nb\rc'''\n", b"1: 'a\\nb\\nc' 3: NL END"),
    (b"'''a'b''c'''\n", b"1: \"a'b''c\" NL END"),
    (
        b"r'\\n' R\"\\x\" b'x' B'y' br'\\z' bR'w'\n",
        b"1: '\\\\n' '\\\\x' 'x' 'y' '\\\\z' 'w' NL END",
    ),
    (b"r'\\''\n", b"1: \"\\\\'\" NL END"),
    (
        b"u'x' U\"y\" ur'\\x' uR'z' u'\\x'\n",
        b"1: UNICODE UNICODE UNICODE UNICODE UNICODE NL END",
    ),
    (b"rb'x'\n", b"1: rb 'x' NL END"),
    (b"f'x'\n", b"1: f 'x' NL END"),
    (b"'\xc3\xa9' # \xc3\xa9\n", b"1: '\\xc3\\xa9' NL END"),
];

#[test]
fn gives_strings(rt: HostRuntime) {
    for (text, want) in STRINGS {
        assert!(rt; is_shown(rt.alloc(), text, want), "{text:?}");
    }
}

/// Operators.
const OPERATORS: [(&[u8], &[u8]); 7] = [
    (
        b"** // << >> <= >= == != <> + - * / % & | ^ ~ < >\n",
        b"1: ** // << >> <= >= == != != + - * / % & | ^ ~ < > NL END",
    ),
    (
        b"**= //= >>= <<= += -= *= /= %= &= |= ^=\n",
        b"1: **= //= >>= <<= += -= *= /= %= &= |= ^= NL END",
    ),
    (
        b"( ) [ ] { } , : . ; = @ `\n",
        b"1: ( ) [ ] { } , : . ; = @ ` NL END",
    ),
    (b"a**=b***c<<==d\n", b"1: a **= b ** * c <<= = d NL END"),
    (b"a<>b!=c<=>d\n", b"1: a != b != c <= > d NL END"),
    (b"===\n", b"1: == = NL END"),
    (b"...\n", b"1: . . . NL END"),
];

#[test]
fn gives_operators(rt: HostRuntime) {
    for (text, want) in OPERATORS {
        assert!(rt; is_shown(rt.alloc(), text, want), "{text:?}");
    }
}

/// Keywords, names, comments and the ends of texts.
const WORDS: [(&[u8], &[u8]); 11] = [
    (
        b"and as assert break class continue def del elif else except exec finally for from global if import in is lambda not or pass print raise return try while with yield\n",
        b"1: <and> <as> <assert> <break> <class> <continue> <def> <del> <elif> <else> <except> <exec> <finally> <for> <from> <global> <if> <import> <in> <is> <lambda> <not> <or> <pass> <print> <raise> <return> <try> <while> <with> <yield> NL END",
    ),
    (
        b"None True print_ _x x1 if_ andx Print\n",
        b"1: None True print_ _x x1 if_ andx Print NL END",
    ),
    (b"x;y\n", b"1: x ; y NL END"),
    (b"x # c", b"1: x NL END"),
    (b"# c", b"1: END"),
    (b"if x: # c\n  y # d\n", b"1: <if> x : NL 2: IN y NL DE END"),
    (b"x = '''\n\n'''\ny\n", b"1: x = '\\n\\n' 3: NL 4: y NL END"),
    (
        b"def f():\n    return 1\n\n\n",
        b"1: <def> f ( ) : NL 2: IN <return> #1 NL 4: DE END",
    ),
    (b"x\\\n", b"1: x NL END"),
    (b"  \\\nx\n", b"1: IN 2: x NL DE END"),
    (b"'\xff\xfe'\n", b"1: '\\xff\\xfe' NL END"),
];

#[test]
fn gives_words(rt: HostRuntime) {
    for (text, want) in WORDS {
        assert!(rt; is_shown(rt.alloc(), text, want), "{text:?}");
    }
}

/// Bytes that no rule takes.
const BAD_CHARACTERS: [(&[u8], u8, u32); 27] = [
    (b"$", 1, 1),
    (b"pass\n$\n", 1, 2),
    (b"x ?\n", 1, 1),
    (b"x = !y\n", 1, 1),
    (b"a\n\nb\n ! \n", 1, 4),
    (b"\\", 1, 1),
    (b"\\x\n", 1, 1),
    (b"x \\ \n", 1, 1),
    (b"x\\", 1, 1),
    (b"\xc3\xa9\n", 1, 1),
    (b"x\x00\n", 1, 1),
    (b"x\n\x01", 1, 2),
    (b"0x\n", 1, 1),
    (b"0xg\n", 1, 1),
    (b"0b\n", 1, 1),
    (b"0b2\n", 1, 1),
    (b"0o\n", 1, 1),
    (b"0o8\n", 1, 1),
    (b"08\n", 1, 1),
    (b"09\n", 1, 1),
    (b"019\n", 1, 1),
    (b"0xL\n", 1, 1),
    (b"08L\n", 1, 1),
    (b"(\n\n08)\n", 1, 3),
    (b"\xef\xbb\xbf\xef\xbb\xbf", 1, 1),
    (b"x\x0by\n", 1, 1),
    (b"x\x7f", 1, 1),
];

#[test]
fn refuses_bad_characters(rt: HostRuntime) {
    for (text, number, line) in BAD_CHARACTERS {
        assert!(rt; is_refused(rt.alloc(), text, number, line), "{text:?}");
    }
}

/// Lines that no column of the stack stands for.
const BAD_DEDENTS: [(&[u8], u8, u32); 14] = [
    (b"if x:\n        print 1\n    print 2\n", 2, 3),
    (b"if x:\n  y\n z\n", 2, 3),
    (b"if x:\n\ty\n    z\n", 2, 3),
    (b"  x\n y\n", 2, 2),
    (b"if x:\n  if y:\n     z\n   w\n", 2, 4),
    (b"if x:\n  y\n\n# c\n z\n", 2, 5),
    (b"if x:\n  y\n $\n", 2, 3),
    (b"if x:\n  y\n 'a\n", 2, 3),
    (b"if x:\r\n  y\r\n z", 2, 3),
    (b"if x:\n  y\n 08", 2, 3),
    (b"if x:\n   y\n  \\\n z\n", 2, 3),
    (b"if x:\n   y\n  \\\n\\\n z\n", 2, 3),
    (b"if x:\n   y\n  \\\n $\n", 2, 3),
    (b"if x:\n   y\n  \\x\n", 2, 3),
];

#[test]
fn refuses_bad_dedents(rt: HostRuntime) {
    for (text, number, line) in BAD_DEDENTS {
        assert!(rt; is_refused(rt.alloc(), text, number, line), "{text:?}");
    }
}

/// Literals that aren't closed.
const OPEN_STRINGS: [(&[u8], u8, u32); 15] = [
    (b"'a", 3, 1),
    (b"'a\n'", 3, 1),
    (b"x = \"abc\n", 3, 1),
    (b"\"\"\"a\nb\n", 3, 1),
    (b"x\n'''a\n\n", 3, 2),
    (b"'a\\", 3, 1),
    (b"'a\\'", 3, 1),
    (b"r'a\\'", 3, 1),
    (b"'''a''", 3, 1),
    (b"'''a\\'''", 3, 1),
    (b"u'abc", 3, 1),
    (b"b\"", 3, 1),
    (b"'a\\\nb", 3, 1),
    (b"(\n'a\n)", 3, 2),
    (b"'a\rb'", 3, 1),
];

#[test]
fn refuses_open_strings(rt: HostRuntime) {
    for (text, number, line) in OPEN_STRINGS {
        assert!(rt; is_refused(rt.alloc(), text, number, line), "{text:?}");
    }
}

/// Integers that are too wide.
const WIDE: [(&[u8], u8, u32); 9] = [
    (b"9223372036854775808", 4, 1),
    (b"print 9223372036854775808\n", 4, 1),
    (b"x\n\n99999999999999999999\n", 4, 3),
    (b"0x8000000000000000", 4, 1),
    (b"01000000000000000000000", 4, 1),
    (
        b"0b1000000000000000000000000000000000000000000000000000000000000000",
        4,
        1,
    ),
    (b"-9223372036854775808", 4, 1),
    (b"0o1000000000000000000000", 4, 1),
    (b"(1,\n9223372036854775808)", 4, 2),
];

#[test]
fn refuses_wide_integers(rt: HostRuntime) {
    for (text, number, line) in WIDE {
        assert!(rt; is_refused(rt.alloc(), text, number, line), "{text:?}");
    }
}

/// Escapes with `x` and no two digits.
const BAD_ESCAPES: [(&[u8], u8, u32); 11] = [
    (b"print \"\\x4\"\n", 12, 1),
    (b"'\\x'", 12, 1),
    (b"'\\xg0'", 12, 1),
    (b"'\\x0g'", 12, 1),
    (b"'''a\n\\x'''", 12, 2),
    (b"'''\\x\n", 12, 1),
    (b"'\\x41\\x'", 12, 1),
    (b"b'\\x1'", 12, 1),
    (b"x\n'\\n\\x'", 12, 2),
    (b"'\\x", 12, 1),
    (b"'''a\n\nb\\xz\n", 12, 3),
];

#[test]
fn refuses_bad_escapes(rt: HostRuntime) {
    for (text, number, line) in BAD_ESCAPES {
        assert!(rt; is_refused(rt.alloc(), text, number, line), "{text:?}");
    }
}

/// Each of the nine tokens has the slice that is wanted.
fn stands(alloc: Global, text: &[u8], want: [(u32, u32); 9]) -> bool {
    if text.len() > 1000 {
        return false;
    }
    match tokens(alloc, text) {
        Ok(found) => {
            for (t, (from, to)) in found.iter().zip(want) {
                if t.from != from || t.to != to {
                    return false;
                }
            }
            found.len() == 9
        }
        Err(_) => false,
    }
}

/// A byte order mark, an indent and a line end of two bytes; and an indent behind a joint.
const PLACES: [(&[u8], [(u32, u32); 9]); 2] = [
    (
        b"\xef\xbb\xbfif x:\r\n  y",
        [
            (3, 5),
            (6, 7),
            (7, 8),
            (8, 10),
            (12, 12),
            (12, 13),
            (13, 13),
            (13, 13),
            (13, 13),
        ],
    ),
    (
        b"if x:\n  \\\n y",
        [
            (0, 2),
            (3, 4),
            (4, 5),
            (5, 6),
            (8, 8),
            (11, 12),
            (12, 12),
            (12, 12),
            (12, 12),
        ],
    ),
];

#[test]
fn gives_places(rt: HostRuntime) {
    for (text, want) in PLACES {
        assert!(rt; stands(rt.alloc(), text, want), "{text:?}");
    }
}
