//! The cases of a list.

use std::alloc::{AllocError, Global};

/// What begins the line with the name of a case.
const NAME: &str = "=== ";

/// What begins a line of the input behind a script.
const INPUT: &str = "<<<";

/// What begins a line that stands so many times in a script as the number behind it says.
const TIMES: &str = "*** ";

/// A script, and the input behind it.
#[derive(Debug, Drop)]
pub struct Case {
    pub name: String,
    pub script: Vec<u8>,
    /// Its last line has no newline.
    pub input: Vec<u8>,
    has_input: bool,
}

impl Case {
    /// A case of an empty script, with no input behind it.
    fn new(alloc: Global, name: &str) -> Result<Case, AllocError> {
        Ok(Case {
            name: String::from_str(alloc, name)?,
            script: Vec::new(alloc),
            input: Vec::new(alloc),
            has_input: false,
        })
    }

    /// Takes a line of the input.
    fn add_input(&mut self, line: &str) -> Result<(), AllocError> {
        if self.has_input {
            self.input.push(b'\n')?;
        }
        self.has_input = true;
        self.input.extend_from_slice(line.as_bytes())
    }

    /// Takes a line of the script, which stands there so many times.
    fn add_script(&mut self, line: &str, times: u32) -> Result<(), AllocError> {
        for _ in 0..times {
            self.script.extend_from_slice(line.as_bytes())?;
            self.script.push(b'\n')?;
        }
        Ok(())
    }

    /// Takes a line of the list.
    fn add(&mut self, line: &str) -> Result<(), AllocError> {
        if let Some(text) = line.strip_prefix(INPUT) {
            return self.add_input(text.strip_prefix(" ").unwrap_or(text));
        }
        match repeated(line) {
            Some((times, text)) => self.add_script(text, times),
            None => self.add_script(line, 1),
        }
    }
}

/// How often a line is to stand, and the line; None where the line doesn't say it.
fn repeated(line: &str) -> Option<(u32, &str)> {
    let (times, text) = line.strip_prefix(TIMES)?.split_once(" ")?;
    Some((times.parse::<u32>().ok()?, text))
}

/// The cases of a list, in their order. Lines before the first name are none of a case.
pub fn read_cases(alloc: Global, list: &str) -> Result<Vec<Case>, AllocError> {
    let mut cases: Vec<Case> = Vec::new(alloc);
    for line in list.lines() {
        if let Some(name) = line.strip_prefix(NAME) {
            cases.push(Case::new(alloc, name)?)?;
        } else if let Some(case) = cases.last_mut() {
            case.add(line)?;
        }
    }
    Ok(cases)
}
