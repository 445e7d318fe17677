//! The roots of a program.
ghost use Rattle.std.specs.Prelude.{◌≡◌, ◌++◌, ◌∷◌, [], map, IfOk, OnOk};
ghost use Rattle.py_base.specs.Numbers.{class_count};
ghost use Rattle.py_templates.specs.Whole.{roots_with};
ghost use Rattle.py_code.specs.Right.{cell_root, class_roots};

use py_base::{Bytes, Kind, NameSet, NoMemory, exception};
use py_code::{Root, Roots};
use std::alloc::Global;

fn root(kind: Kind, number: u8, bytes: Bytes) -> Root
    ensures { result ≡ record { kind = kind; number = number; bytes = bytes } }
{
    Root {
        kind,
        number,
        bytes,
    }
}

/// The classes, behind the cell of the count of threads.
fn first_roots(alloc: Global) -> Result<Roots, NoMemory>
    ensures { IfOk result (λ out. out ≡ cell_root [] ∷ class_roots 0 class_count) }
{
    let mut out = Roots::new(alloc);
    out.push(root(Kind::Cell, 0, Bytes::new(alloc)))?;
    for class in 0..exception::COUNT {
        out.push(root(Kind::Class, class, Bytes::new(alloc)))?;
    }
    Ok(out)
}

/// One root of a kind for each of these.
fn push_all(alloc: Global, out: &mut Roots, kind: Kind, names: &NameSet) -> Result<(), NoMemory>
    ensures { OnOk result (out.new ≡ out.old ++ map (λ x. record { kind = kind; number = 0; bytes = x }) names.now) }
{
    for name in names.as_slice() {
        let bytes = Bytes::from_slice(alloc, *name)?;
        out.push(root(kind, 0, bytes))?;
    }
    Ok(())
}

/// The cell of the count of threads, the classes, the strings and the cells of the global names.
pub fn roots(alloc: Global, texts: &NameSet, cells: &NameSet) -> Result<Roots, NoMemory>
    ensures { IfOk result (λ out. out ≡ roots_with texts.now cells.now) }
{
    let mut out = first_roots(alloc)?;
    push_all(alloc, &mut out, Kind::Str, texts)?;
    if cells.has(b"__name__") {
        let bytes = Bytes::from_slice(alloc, b"__main__")?;
        out.push(root(Kind::Str, 0, bytes))?;
    }
    push_all(alloc, &mut out, Kind::Cell, cells)?;
    Ok(out)
}
