//! The scopes of a module.
ghost use Rattle.std.specs.Prelude.{◌≡◌, IfOk};
ghost use Rattle.py_names.specs.Outline.{outline};
ghost use Rattle.py_names.specs.Resolves.{Resolves};

use crate::check::fault;
use crate::error::NameFault;
use crate::event::{BodyKind, Event};
use crate::gather::{scopes, tables};
use crate::outline::Outline;
use crate::scope::Scopes;
use crate::statement::{Where, block};
use py_base::NoMemory;
use py_tree::Module;
use sqlite_items::Items;
use std::alloc::Global;

/// What a module says about names.
fn outline(alloc: Global, m: &Module) -> Result<Items<Event>, NoMemory>
    ensures { IfOk result (λ events. events ≡ outline m.now) }
{
    let mut out = Outline::new(alloc);
    out.push(Event::Enter(BodyKind::Module))?;
    block(&mut out, Where::OUTSIDE, m.body.as_slice())?;
    out.push(Event::Leave)?;
    Ok(out.into_events())
}

/// The scopes of the bodies of a module: of the module itself and of each `def` and `class`, in the order of the text.
///
/// A name is local to the function or the class body that binds it, as a target, a parameter or by `for`, `import`,
/// `def`, `class`, `except` or `del`, unless a `global` there names it. A module's names are global.
///
/// Refused is the earliest of these places, with the line on which the simple statement or the clause that holds it
/// begins, counted from 1. `Misplaced`: a `return` outside a function, a `break` or `continue` outside a loop, a
/// `continue` in a finally block inside its loop, a `global` of a parameter, a `raise` alone outside an except clause
/// of its body, and `None` where it is bound or names a parameter, a keyword or an attribute. `Doubled`: a parameter or
/// a keyword that stands once more in its list. `Closure`: a name that a body uses, that isn't local or declared global
/// there, and that is local to a function round it. `OutOfMemory` says that there was no memory for the scopes.
pub fn resolve(alloc: Global, m: &Module) -> Result<Scopes, NameFault>
    ensures { Resolves m.now result }
{
    let events = outline(alloc, m)?;
    let tables = tables(alloc, events.as_slice())?;
    match fault(alloc, tables.as_slice(), events.as_slice())? {
        Some(refusal) => Err(NameFault::Refused(refusal)),
        None => {
            let found = scopes(alloc, tables.as_slice())?;
            Ok(found)
        }
    }
}
