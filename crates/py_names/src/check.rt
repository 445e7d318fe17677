//! The earliest place that is refused.
ghost use Rattle.std.specs.Prelude.{◌≡◌, ◌+◌, ◌<◌, ◌^◌, ◌&&◌, ◌∷◌, [], length, IfOk, OnOk};
ghost use Rattle.std.specs.List.{list_any};
ghost use Rattle.py_base.specs.NameLists.{has};
ghost use Rattle.py_names.specs.Scopes.{bodies_after, first_fault, inside_after, is_closure, is_function, is_local, is_parameter, placed, refused};
ghost use Rattle.py_names.specs.inner.Tables.{at};

use crate::event::Event;
use crate::nest::Nest;
use crate::table::Table;
use py_base::{NoMemory, Refusal, split};
use std::alloc::Global;

/// Whether a name is local to a body.
fn is_local(tables: &[Table], body: usize, name: &[u8]) -> bool
    ensures { result ≡ is_local (at tables.now body) name.now }
{
    match tables.get(body) {
        Some(table) => table.is_local(name),
        None => false,
    }
}

/// Whether a `global` of a body names a name.
fn declares(tables: &[Table], body: usize, name: &[u8]) -> bool
    ensures { result ≡ has name.now (at tables.now body).declared }
{
    match tables.get(body) {
        Some(table) => table.declares(name),
        None => false,
    }
}

/// Whether a name is a parameter of a body.
fn takes(tables: &[Table], body: usize, name: &[u8]) -> bool
    ensures { result ≡ has name.now (at tables.now body).parameters }
{
    match tables.get(body) {
        Some(table) => table.takes(name),
        None => false,
    }
}

/// Whether a body is a function's.
fn is_function(tables: &[Table], body: usize) -> bool
    ensures { result ≡ is_function (at tables.now body).kind }
{
    match tables.get(body) {
        Some(table) => table.is_function(),
        None => false,
    }
}

/// Whether a name is local to one of these bodies that is a function's.
fn any_function(tables: &[Table], outer: &[usize], name: &[u8]) -> bool
    ensures { result ≡ list_any
        (λ j. is_function (at tables.now j).kind && is_local (at tables.now j) name.now) outer.now }
{
    for body in outer {
        if is_function(tables, *body) && is_local(tables, *body, name) {
            return true;
        }
    }
    false
}

/// Whether the innermost body would need a name of a function round it.
fn is_closure(tables: &[Table], nest: &Nest, name: &[u8]) -> bool
    ensures { result ≡ is_closure (at tables.now) nest.now name.now }
{
    let Some((body, outer)) = nest.split() else {
        return false;
    };
    if is_local(tables, body, name) {
        return false;
    }
    if declares(tables, body, name) {
        return false;
    }
    any_function(tables, outer, name)
}

/// Whether a name is a parameter of the innermost body.
fn is_parameter(tables: &[Table], nest: &Nest, name: &[u8]) -> bool
    ensures { result ≡ is_parameter (at tables.now) nest.now name.now }
{
    let Some((body, _)) = nest.split() else {
        return false;
    };
    takes(tables, body, name)
}

/// What an event is refused for.
fn refused(tables: &[Table], nest: &Nest, event: &Event) -> Option<Refusal>
    ensures { result ≡ refused (at tables.now) nest.now event.now }
{
    match event {
        Event::Misplaced(line) => Some(Refusal::Misplaced { line: *line }),
        Event::Doubled(line) => Some(Refusal::Doubled { line: *line }),
        Event::Declares(line, name) => {
            if is_parameter(tables, nest, name.as_slice()) {
                Some(Refusal::Misplaced { line: *line })
            } else {
                None
            }
        }
        Event::Uses(line, name) => {
            if is_closure(tables, nest, name.as_slice()) {
                Some(Refusal::Closure { line: *line })
            } else {
                None
            }
        }
        Event::Enter(_) => None,
        Event::Leave => None,
        Event::Takes(_) => None,
        Event::Binds(_, _) => None,
    }
}

/// The bodies round what follows an event, of which so many began before it, and how many began up to it.
fn pass(nest: &mut Nest, count: usize, event: &Event) -> Result<usize, NoMemory>
    requires { count + 1 < 2 ^ 64 }
    ensures nest { OnOk result (nest.new ≡ inside_after event.now count nest.old) }
    ensures count { IfOk result (λ n. n ≡ bodies_after event.now count) }
{
    match event {
        Event::Enter(_) => {
            nest.enter(count)?;
            Ok(count + 1)
        }
        Event::Leave => {
            nest.leave();
            Ok(count)
        }
        Event::Takes(_) => Ok(count),
        Event::Uses(_, _) => Ok(count),
        Event::Binds(_, _) => Ok(count),
        Event::Declares(_, _) => Ok(count),
        Event::Misplaced(_) => Ok(count),
        Event::Doubled(_) => Ok(count),
    }
}

/// The earliest place that is refused, if there is one.
pub fn fault(alloc: Global, tables: &[Table], events: &[Event]) -> Result<Option<Refusal>, NoMemory>
    ensures { IfOk result (λ r. r ≡ first_fault (at tables.now) (placed [] 0 events.now)) }
{
    let mut nest = Nest::new(alloc);
    let mut count = 0;
    let mut rest = events;
    'events: while let Some((event, more)) = split(rest) {
        count = pass(&mut nest, count, event)?;
        if let Some(refusal) = refused(tables, &nest, event) {
            return Ok(Some(refusal));
        }
        rest = more;
    }
    Ok(None)
}
