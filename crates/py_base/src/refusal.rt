//! Why a script's text is refused.
ghost use Rattle.std.specs.Prelude.{◌≡◌};
ghost use Rattle.py_base.specs.Refusal.{refusal_number, refusal_line};

/// A form of Python 2.7 that this profile leaves out.
#[derive(Clone, Copy, Debug, Drop, PartialEq, Eq)]
pub enum Construct {
    /// A number with a point, an exponent or the suffix `j`.
    Float,
    /// A number with the suffix `l` or `L`.
    Long,
    /// A string with a prefix that has a `u`.
    Unicode,
    Backquote,
    Lambda,
    Decorator,
    With,
    Exec,
    /// `yield`.
    Generator,
    Comprehension,
    Set,
    StarArgument,
    TupleArgument,
    /// An import of another module or name than those of the profile.
    Import,
    /// `print >>`.
    PrintTo,
    /// The third part of a `raise`.
    Traceback,
    /// A slice with a step or a comma, or a slice as a target.
    SliceForm,
    MultipleBases,
}

/// Why a text is refused, with the line of the refused place, counted from 1.
#[derive(Clone, Copy, Debug, Drop, PartialEq, Eq)]
pub enum Refusal {
    BadCharacter { line: u32 },
    BadDedent { line: u32 },
    OpenString { line: u32 },
    /// An integer above 9,223,372,036,854,775,807.
    NumberWide { line: u32 },
    /// A token that continues no module.
    Unexpected { line: u32 },
    LeftOut { construct: Construct, line: u32 },
    /// A tree of more than 100 levels.
    Deep { line: u32 },
    /// A statement or a name where it may not stand.
    Misplaced { line: u32 },
    /// A parameter or a keyword that stands twice.
    Doubled { line: u32 },
    /// A body that uses a name which an enclosing function binds.
    Closure { line: u32 },
    /// More instructions, functions or roots than 65,535, or a string longer than 1,048,576 bytes.
    TooLarge { line: u32 },
    BadEscape { line: u32 },
}

impl Refusal {
    /// Its number, from 1 to 12.
    pub fn number(&self) -> u8
        ensures { result ≡ refusal_number self.now }
    {
        match self {
            Refusal::BadCharacter { .. } => 1,
            Refusal::BadDedent { .. } => 2,
            Refusal::OpenString { .. } => 3,
            Refusal::NumberWide { .. } => 4,
            Refusal::Unexpected { .. } => 5,
            Refusal::LeftOut { .. } => 6,
            Refusal::Deep { .. } => 7,
            Refusal::Misplaced { .. } => 8,
            Refusal::Doubled { .. } => 9,
            Refusal::Closure { .. } => 10,
            Refusal::TooLarge { .. } => 11,
            Refusal::BadEscape { .. } => 12,
        }
    }

    /// The line of the refused place, from 1.
    pub fn line(&self) -> u32
        ensures { result ≡ refusal_line self.now }
    {
        match self {
            Refusal::BadCharacter { line } => *line,
            Refusal::BadDedent { line } => *line,
            Refusal::OpenString { line } => *line,
            Refusal::NumberWide { line } => *line,
            Refusal::Unexpected { line } => *line,
            Refusal::LeftOut { construct: _, line } => *line,
            Refusal::Deep { line } => *line,
            Refusal::Misplaced { line } => *line,
            Refusal::Doubled { line } => *line,
            Refusal::Closure { line } => *line,
            Refusal::TooLarge { line } => *line,
            Refusal::BadEscape { line } => *line,
        }
    }
}
