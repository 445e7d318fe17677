//! What a name stands for where nothing is bound to it.
ghost use Rattle.std.specs.Prelude.{◌≡◌, Some, IfOk};
ghost use Rattle.std.specs.Str.{bytes_eq};
ghost use Rattle.py_base.specs.Numbers.{number_in};
ghost use Rattle.py_code.specs.declared.instr.Constant.TheVariants.{Root};
ghost use Rattle.py_frames.specs.GlobalRows as globals;

use py_base::exception::THREAD_ERROR;
use py_base::{NoMemory, builtin_number, class_number};
use py_code::{Constant, Program};
use py_data::builtin::THREAD_MODULE;
use py_parts::first_cell;
use std::alloc::AllocError;

/// Two names are the same.
fn is_name(x: &[u8], y: &[u8]) -> bool
    ensures { result ≡ bytes_eq x.now y.now }
{
    x == y
}

/// The number of the class of a name that stands for it.
fn exception_named(name: &[u8]) -> Option<u8>
    ensures { result ≡ number_in globals.exception_names name.now }
{
    match class_number(name) {
        Some(n) => { if n < THREAD_ERROR { Some(n) } else { None } }
        None => None,
    }
}

/// The number of the function or type of a name.
fn function_number(name: &[u8]) -> Option<u8>
    ensures { result ≡ number_in globals.function_names name.now }
{
    match builtin_number(name) {
        Some(n) => { if n < THREAD_MODULE { Some(n) } else { None } }
        None => None,
    }
}

/// The function or type of a name.
fn function_named(name: &[u8]) -> Option<Constant>
    ensures { result ≡ globals.function_named name.now }
{
    match function_number(name) {
        Some(n) => Some(Constant::Builtin(n)),
        None => None,
    }
}

/// The exception class of a name, or the function or type.
fn class_or_function(name: &[u8]) -> Option<Constant>
    ensures { result ≡ globals.class_or (number_in globals.exception_names name.now) (globals.function_named name.now) }
{
    match exception_named(name) {
        Some(n) => Some(Constant::Root(1 + n as u32)),
        None => function_named(name),
    }
}

/// The string `__main__` of a program that has the global name `__name__`.
fn main_root(p: &Program) -> Result<Option<Constant>, NoMemory>
    ensures { IfOk result (λ o. o ≡ Some (Root (globals.main_place p.now))) }
{
    let first = first_cell(p)?;
    match first.checked_sub(1) {
        Some(n) => Ok(Some(Constant::Root(n))),
        None => Err(AllocError),
    }
}

/// What a name stands for where nothing is bound to it.
#[tactic(auto, unfolding(py_frames::specs::GlobalRows::builtin_named))]
pub fn builtin_named(p: &Program, name: &[u8]) -> Result<Option<Constant>, NoMemory>
    ensures { IfOk result (λ o. o ≡ globals.builtin_named p.now name.now) }
{
    if is_name(b"True", name) {
        return Ok(Some(Constant::Truth(true)));
    }
    if is_name(b"False", name) {
        return Ok(Some(Constant::Truth(false)));
    }
    if is_name(b"__name__", name) {
        return main_root(p);
    }
    Ok(class_or_function(name))
}
