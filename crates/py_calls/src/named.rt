//! Parameters and the keywords of a call.
ghost use Rattle.std.specs.Prelude.{◌≡◌, ◌++◌, map, OnOk, OnErr, IfOk};
ghost use Rattle.py_base.specs.NameLists.{has};
ghost use Rattle.py_frames.specs.Binding as binding;
ghost use Rattle.py_frames.specs.State as state;

use py_base::{Bytes, NoMemory, skip, split};
use py_code::Program;
use py_data::{Value, Values, value_or_unset};
use py_parts::root_name;
use std::alloc::Global;

/// Whether a name is among these.
fn has(names: &[Bytes], name: &[u8]) -> bool
    ensures { result ≡ has name.now names.now }
{
    let mut rest = names;
    'names: while let Some((x, more)) = split(rest) {
        if name == x.as_slice() {
            return true;
        }
        rest = more;
    }
    false
}

/// Whether a name is that of a keyword.
fn has_key(p: &Program, keys: &[u32], name: &[u8]) -> bool
    ensures { result ≡ has name.now (map (state.root_name p.now) keys.now) }
{
    let mut rest = keys;
    'keys: while let Some((k, more)) = split(rest) {
        if name == root_name(p, *k) {
            return true;
        }
        rest = more;
    }
    false
}

/// Each keyword names one of these parameters, and no two name the same.
pub fn are_named(p: &Program, names: &[Bytes], keys: &[u32]) -> bool
    ensures { result ≡ binding.are_named names.now (map (state.root_name p.now) keys.now) }
{
    let mut rest = keys;
    'keys: while let Some((k, more)) = split(rest) {
        let name = root_name(p, *k);
        if !has(names, name) {
            return false;
        }
        if has_key(p, more, name) {
            return false;
        }
        rest = more;
    }
    true
}

/// Each of these parameters is named by a keyword.
pub fn all_named(p: &Program, names: &[Bytes], keys: &[u32]) -> bool
    ensures { result ≡ binding.all_named names.now (map (state.root_name p.now) keys.now) }
{
    let mut rest = names;
    'names: while let Some((x, more)) = split(rest) {
        if !has_key(p, keys, x.as_slice()) {
            return false;
        }
        rest = more;
    }
    true
}

/// The value of the keyword of a name, or else this one.
fn value_named(p: &Program, name: &[u8], keys: &[u32], values: &[Value], other: Value) -> Value
    ensures { result ≡ binding.value_named name.now (map (state.root_name p.now) keys.now) values.now other }
{
    let mut rest = keys;
    let mut left = values;
    'keys: while let Some((k, more)) = split(rest) {
        if root_name(p, *k) == name {
            return value_or_unset(left, 0);
        }
        rest = more;
        left = skip(left, 1);
    }
    other
}

/// What these parameters get, where the defaults stand beside them.
pub fn push_filled(
    out: &mut Values,
    p: &Program,
    names: &[Bytes],
    keys: &[u32],
    values: &[Value],
    defaults: &[Value],
) -> Result<(), NoMemory>
    ensures { OnOk result (out.new ≡ out.old ++ binding.filled names.now (map (state.root_name p.now) keys.now)
        values.now defaults.now) }
{
    let mut rest = names;
    let mut left = defaults;
    'names: while let Some((x, more)) = split(rest) {
        let other = value_or_unset(left, 0);
        out.push(value_named(p, x.as_slice(), keys, values, other))?;
        rest = more;
        left = skip(left, 1);
    }
    Ok(())
}

/// So many slots without a value. At want of memory the list stays as it is.
pub fn push_unset(out: &mut Values, n: usize) -> Result<(), NoMemory>
    ensures ok { OnOk result (out.new ≡ out.old ++ binding.unset_slots n) }
    ensures err { OnErr result (out.new ≡ out.old) }
{
    let start = out.len();
    let mut left = n;
    'slots: while left > 0 {
        if let Err(want) = out.push(Value::Unset) {
            out.truncate(start);
            return Err(want);
        }
        left -= 1;
    }
    Ok(())
}

/// So many defaults, of which the last ones are these.
pub fn last_defaults(alloc: Global, m: usize, defaults: &[Value]) -> Result<Values, NoMemory>
    ensures { IfOk result (λ ds. ds ≡ binding.last_defaults m defaults.now) }
{
    let n = defaults.len();
    let mut out = Values::new(alloc);
    push_unset(&mut out, m.saturating_sub(n))?;
    out.extend_from_slice(skip(defaults, n.saturating_sub(m)))?;
    Ok(out)
}
