//! The tables of all bodies, and the scopes that they give.
ghost use Rattle.std.specs.Prelude.{◌≡◌, ◌++◌, ◌∷◌, [], length, filter, map, IfOk, OnOk};
ghost use Rattle.py_names.specs.Scopes.{inside_after, names_after, no_names, scope_of};
ghost use Rattle.py_names.specs.inner.Tables.{chooses, tables_after, tables_by, told};

use crate::event::Event;
use crate::nest::Nest;
use crate::scope::{Scope, Scopes, Texts};
use crate::table::Table;
use py_base::{Bytes, NoMemory, split};
use sqlite_items::Items;
use std::alloc::Global;

/// One more event of the innermost body.
fn tell<'a>(tables: &mut Vec<Table<'a>>, nest: &Nest, event: &'a Event) -> Result<(), NoMemory>
    ensures { OnOk result (tables.new.items ≡ told tables.old.items nest.now event.now) }
{
    let Some((body, _)) = nest.split() else {
        return Ok(());
    };
    if body < tables.len() {
        tables[body].note(event)?;
    }
    Ok(())
}

/// A body begins.
fn begin<'a>(
    alloc: Global,
    tables: &mut Vec<Table<'a>>,
    nest: &mut Nest,
    event: &'a Event,
) -> Result<(), NoMemory>
    ensures tables { OnOk result (tables.new.items ≡ tables.old.items ++ names_after no_names event.now ∷ []) }
    ensures nest { OnOk result (nest.new ≡ length tables.old.items ∷ nest.old) }
{
    let mut table = Table::new(alloc);
    table.note(event)?;
    nest.enter(tables.len())?;
    tables.push(table)?;
    Ok(())
}

/// One more event of the text.
fn take<'a>(
    alloc: Global,
    tables: &mut Vec<Table<'a>>,
    nest: &mut Nest,
    event: &'a Event,
) -> Result<(), NoMemory>
    ensures tables { OnOk result (tables.new.items ≡ tables_after tables.old.items nest.old event.now) }
    ensures nest { OnOk result (nest.new ≡ inside_after event.now (length tables.old.items) nest.old) }
{
    match event {
        Event::Enter(_) => begin(alloc, tables, nest, event),
        Event::Leave => {
            nest.leave();
            Ok(())
        }
        Event::Takes(_) => tell(tables, nest, event),
        Event::Uses(_, _) => tell(tables, nest, event),
        Event::Binds(_, _) => tell(tables, nest, event),
        Event::Declares(_, _) => tell(tables, nest, event),
        Event::Misplaced(_) => tell(tables, nest, event),
        Event::Doubled(_) => tell(tables, nest, event),
    }
}

/// The tables of the bodies of a text that says this.
pub fn tables<'a>(alloc: Global, events: &'a [Event]) -> Result<Vec<Table<'a>>, NoMemory>
    ensures { IfOk result (λ tables. tables.items ≡ tables_by [] [] events.now) }
{
    let mut tables = Vec::new(alloc);
    let mut nest = Nest::new(alloc);
    let mut rest = events;
    'events: while let Some((event, more)) = split(rest) {
        take(alloc, &mut tables, &mut nest, event)?;
        rest = more;
    }
    Ok(tables)
}

/// The names of a body that are local, or that aren't.
fn chosen(alloc: Global, table: &Table, local: bool) -> Result<Texts, NoMemory>
    ensures { IfOk result (λ texts. texts ≡ filter (chooses table.now local) table.now.mentioned) }
{
    let mut texts = Items::new(alloc);
    for name in table.mentioned() {
        if table.is_local(name) == local {
            let name = Bytes::from_slice(alloc, name)?;
            texts.push(name)?;
        }
    }
    Ok(texts)
}

/// The scope of a body.
fn scope(alloc: Global, table: &Table) -> Result<Scope, NoMemory>
    ensures { IfOk result (λ scope. scope ≡ scope_of table.now) }
{
    let locals = chosen(alloc, table, true)?;
    let globals = chosen(alloc, table, false)?;
    Ok(Scope { locals, globals })
}

/// The scopes of these bodies.
pub fn scopes(alloc: Global, tables: &[Table]) -> Result<Scopes, NoMemory>
    ensures { IfOk result (λ scopes. scopes ≡ map scope_of tables.now) }
{
    let mut scopes = Items::new(alloc);
    for table in tables {
        let one = scope(alloc, table)?;
        scopes.push(one)?;
    }
    Ok(scopes)
}
