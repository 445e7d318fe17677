//! Where a name lives.
ghost use Rattle.std.specs.Prelude.{◌≡◌};
ghost use Rattle.py_templates.specs.Table.{del, load, store};

use py_code::Instr;

/// Where a name of a body lives.
#[derive(Clone, Copy, Debug, Drop, PartialEq, Eq)]
pub enum Home {
    /// In that slot of the frame.
    Slot(u32),
    /// In the cell that is that root.
    Cell(u32),
    /// In the class body's dictionary, under the name that is that root.
    Body(u32),
}

impl Home {
    /// The instruction that pushes the value.
    pub fn load(self) -> Instr
        ensures { result ≡ load self }
    {
        match self {
            Home::Slot(s) => Instr::LoadLocal(s),
            Home::Cell(g) => Instr::LoadGlobal(g),
            Home::Body(n) => Instr::LoadName(n),
        }
    }

    /// The instruction that puts the top there.
    pub fn store(self) -> Instr
        ensures { result ≡ store self }
    {
        match self {
            Home::Slot(s) => Instr::StoreLocal(s),
            Home::Cell(g) => Instr::StoreGlobal(g),
            Home::Body(n) => Instr::StoreName(n),
        }
    }

    /// The instruction that deletes the name.
    pub fn del(self) -> Instr
        ensures { result ≡ del self }
    {
        match self {
            Home::Slot(s) => Instr::DelLocal(s),
            Home::Cell(g) => Instr::DelGlobal(g),
            Home::Body(n) => Instr::DelName(n),
        }
    }
}
