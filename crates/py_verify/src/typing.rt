//! The search for a typing of a code: the shape of each place that can be reached.
ghost use Rattle.std.specs.Prelude.{◌≡◌, ◌↔◌, ◌<◌, ◌^◌, IfOk, IsTrue, length, None, replicate};
ghost use Rattle.py_code.specs.Typing.{IsRight};
ghost use Rattle.py_verify.specs.inner.Work.{Flows, Visits};

use crate::bounds::Bounds;
use crate::effect::effect_in;
use crate::shape::Shape;
use py_base::NoMemory;
use py_code::Instr;
use std::alloc::Global;

/// The shapes of the places, as far as they are known to be reached.
type Shapes = Vec<Option<Shape>>;

/// Whether a code has a typing.
pub fn is_right(alloc: Global, k: &Bounds<'_>, code: &[Instr]) -> Result<bool, NoMemory>
    ensures { IfOk result (λ yes. IsTrue yes ↔ IsRight k.now code.now) }
{
    if code.len() == 0 || code.len() > u32::MAX as usize {
        return Ok(false);
    }
    let mut shapes = unknown(alloc, code.len())?;
    shapes[0] = Some(Shape::start(alloc));
    let mut work = Vec::new(alloc);
    work.push(0)?;
    while let Some(place) = work.pop() {
        if !visit(alloc, k, code, place, &mut shapes, &mut work)? {
            return Ok(false);
        }
    }
    Ok(true)
}

/// So many unknown shapes.
fn unknown(alloc: Global, count: usize) -> Result<Shapes, NoMemory>
    ensures { IfOk result (λ v. v.items ≡ replicate count None) }
{
    let mut shapes = Vec::new(alloc);
    for _ in 0..count {
        shapes.push(None)?;
    }
    Ok(shapes)
}

/// One place that is reached: what it asks, and where it leads. False where no typing is left.
fn visit(
    alloc: Global,
    k: &Bounds<'_>,
    code: &[Instr],
    place: usize,
    shapes: &mut Shapes,
    work: &mut Vec<usize>,
) -> Result<bool, NoMemory>
    requires within { place < length code.now }
    requires long { length shapes.old.items ≡ length code.now }
    requires few { length code.now < 2 ^ 32 }
    ensures { IfOk result (λ yes. Visits yes k.now code.now place
        shapes.old.items shapes.new.items work.old.items work.new.items) }
{
    let i = code[place];
    let Some(shape) = &shapes[place] else {
        return Ok(true);
    };
    let e = effect_in(k, i);
    if !shape.is_fine(k, i, &e) {
        return Ok(false);
    }
    if !e.flow.is_forward(k.first()) {
        return Ok(false);
    }
    let there = shape.there(alloc, &e)?;
    let after = shape.after(alloc, &e)?;
    if !flow(shapes, work, e.flow.target(), there)? {
        return Ok(false);
    }
    let fits = flow(shapes, work, e.flow.next(place), after)?;
    Ok(fits)
}

/// A place, if there is one, gets a shape, or has it already. False where it has another one, or is none.
fn flow(
    shapes: &mut Shapes,
    work: &mut Vec<usize>,
    to: Option<usize>,
    shape: Shape,
) -> Result<bool, NoMemory>
    ensures { IfOk result (λ yes. Flows yes shapes.old.items shapes.new.items work.old.items work.new.items to shape) }
{
    let Some(place) = to else {
        return Ok(true);
    };
    if place >= shapes.len() {
        return Ok(false);
    }
    if let Some(found) = &shapes[place] {
        return Ok(found.same(&shape));
    }
    work.push(place)?;
    shapes[place] = Some(shape);
    Ok(true)
}
