//! What a call is to do.
ghost use Rattle.std.specs.Prelude.{◌≡◌, IfOk};

use py_base::NoMemory;
use std::alloc::Global;
use std::marker::Model;

/// The name of a script's file, which isn't empty, as a loader takes it. Contracts see of it its bytes.
#[derive(Debug, Drop)]
pub struct Name {
    text: String,
}

impl Model for Name {
    ghost use Rattle.std.specs.Prelude.{List, ℕ, string_bytes};

    ghost Value = { List ℕ };

    ghost view = { λ n. string_bytes n.text };
}

impl Name {
    /// That text as a name.
    pub(crate) fn new(alloc: Global, text: &str) -> Result<Name, NoMemory>
        ensures { IfOk result (λ n. n ≡ text.now) }
    {
        Ok(Name {
            text: String::from_str(alloc, text)?,
        })
    }

    /// The text of it.
    pub fn as_text(&self) -> &str
        ensures { result.now ≡ self.now }
    {
        self.text.as_str()
    }
}

/// Where a script comes from.
#[derive(Debug, Drop)]
pub enum Script {
    /// The source.
    Source,
    /// The file of that name.
    File(Name),
    /// The generated workload with that number, at most 1,000,000: `demo_text` gives its text.
    Demo(u32),
}

/// What the words of a call ask for.
#[derive(Debug, Drop)]
pub struct Options {
    pub script: Script,
    /// How many segments run, from 1 to 8.
    pub segments: u8,
    /// How many steps a transaction has at most, from 1 to 1,000,000.
    pub length: u64,
    /// How many pages a store has, from 1 to 65,536.
    pub pages: u32,
    /// How many steps a run has at most, from 1 to 10^15.
    pub budget: u64,
}
