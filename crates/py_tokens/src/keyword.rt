//! The numbers of keywords, as `TokenKind::Keyword` has them.

pub const AND: u8 = 0;

pub const AS: u8 = 1;

pub const ASSERT: u8 = 2;

pub const BREAK: u8 = 3;

pub const CLASS: u8 = 4;

pub const CONTINUE: u8 = 5;

pub const DEF: u8 = 6;

pub const DEL: u8 = 7;

pub const ELIF: u8 = 8;

pub const ELSE: u8 = 9;

pub const EXCEPT: u8 = 10;

pub const EXEC: u8 = 11;

pub const FINALLY: u8 = 12;

pub const FOR: u8 = 13;

pub const FROM: u8 = 14;

pub const GLOBAL: u8 = 15;

pub const IF: u8 = 16;

pub const IMPORT: u8 = 17;

pub const IN: u8 = 18;

pub const IS: u8 = 19;

pub const LAMBDA: u8 = 20;

pub const NOT: u8 = 21;

pub const OR: u8 = 22;

pub const PASS: u8 = 23;

pub const PRINT: u8 = 24;

pub const RAISE: u8 = 25;

pub const RETURN: u8 = 26;

pub const TRY: u8 = 27;

pub const WHILE: u8 = 28;

pub const WITH: u8 = 29;

pub const YIELD: u8 = 30;

/// Each keyword with its number.
pub const KEYWORDS: [(&[u8], u8); 31] = [
    (b"and", AND),
    (b"as", AS),
    (b"assert", ASSERT),
    (b"break", BREAK),
    (b"class", CLASS),
    (b"continue", CONTINUE),
    (b"def", DEF),
    (b"del", DEL),
    (b"elif", ELIF),
    (b"else", ELSE),
    (b"except", EXCEPT),
    (b"exec", EXEC),
    (b"finally", FINALLY),
    (b"for", FOR),
    (b"from", FROM),
    (b"global", GLOBAL),
    (b"if", IF),
    (b"import", IMPORT),
    (b"in", IN),
    (b"is", IS),
    (b"lambda", LAMBDA),
    (b"not", NOT),
    (b"or", OR),
    (b"pass", PASS),
    (b"print", PRINT),
    (b"raise", RAISE),
    (b"return", RETURN),
    (b"try", TRY),
    (b"while", WHILE),
    (b"with", WITH),
    (b"yield", YIELD),
];
