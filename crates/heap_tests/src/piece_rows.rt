//! Pieces of a script's threads, and searches over a piece view. Values that are expected are by hand.
ghost use Rattle.std.specs.Prelude.{◌≡◌, true, None, IfOk, length};
ghost use Rattle.py_base.specs.declared.kind.Kind.TheVariants.{Dict};
ghost use Rattle.py_data.specs.Sense.{IfThere};
ghost use Rattle.lock_run.specs.Client.{StandsIn};
ghost use Rattle.lock_run.specs.Script.{IsCell, IsList, ScriptSound, script_life};
ghost use Rattle.lock_run.specs.declared.client.Life.TheVariants.{Lives};
ghost use Rattle.stm_pieces.specs.PieceOf.{piece_state};

use lock_run::{Act, Acts, Script, ScriptState};
use py_data::{
    Addr, Bytes, Entry, Kind, Names, NoMemory, Record, Records, Stop, Value, Values, View,
};
use std::alloc::Global;
use std::process::Abort;
use std::test;
use stm_pieces::{Loan, Piece, PieceEnd, PieceView, run_piece};

type Tested = Result<(), test::Fail>;

/// The address of the Cell, and that of the List.
const CELL: Addr = Addr(1);

const LIST: Addr = Addr(2);

/// The record of a kind and one value, with the rooms of a new one.
fn one_value(alloc: Global, kind: Kind, x: Value) -> Result<Entry, test::Fail>
    ensures kind { IfOk result (λ e. e.kind ≡ kind) }
    ensures values { IfOk result (λ e. length e.values ≡ 1) }
{
    let made = Record {
        kind,
        values: Values::from_slice(alloc, &[x])?,
        bytes: Bytes::new(alloc),
    };
    Ok(Entry::of(alloc, &made)?)
}

/// A thread of the first list of acts that did so many, with a loan of the Cell, which holds 7, and of no List.
fn loan_of_cell(
    alloc: Global,
    done: usize,
    most: u64,
    locked: bool,
) -> Result<Loan<ScriptState>, test::Fail>
    ensures lives { IfOk result (λ l. script_life l.state ≡ Lives) }
    ensures stands { IfOk result (λ l. StandsIn ScriptSound true (piece_state l.view).heap l.state) }
{
    let state = ScriptState::Acts {
        number: 0,
        done,
        cells: Names::from_slice(alloc, &[CELL])?,
        list: LIST,
    };
    let mut loan = Loan::new(alloc, 1, state, most);
    loan.add(CELL, one_value(alloc, Kind::Cell, Value::Int(7))?, locked)?;
    Ok(loan)
}

/// The first value of the Cell.
fn cell_in(piece: &Piece<ScriptState>) -> Option<Value> {
    match piece.view.record(CELL.0) {
        Some(r) => r.values().first().copied(),
        None => None,
    }
}

/// The first value of the Cell as it was loaned.
fn cell_before(piece: &Piece<ScriptState>) -> Option<Value> {
    match piece.view.loaned(CELL.0) {
        Some(r) => r.values().first().copied(),
        None => None,
    }
}

/// A script with one Cell and one list of acts.
fn script(rt: &impl Abort, alloc: Global, acts: &[Act]) -> Result<Script, test::Fail> {
    let mut lists = Vec::new(alloc);
    lists.push(Acts::from_slice(alloc, acts)?)?;
    assert!(rt; Script::fits(1, lists.as_slice()));
    Ok(Script::new(1, lists))
}

/// A piece ended so: after so many steps, with this value in the Cell, for this reason. At want of memory it ended
/// earlier, and the Cell holds what it held after the steps that were done.
fn ended(rt: &impl Abort, piece: &Piece<ScriptState>, held: &[i64], end: PieceEnd) {
    let steps = piece.steps as usize;
    assert!(rt; steps < held.len());
    assert_eq!(rt; cell_in(piece), Some(Value::Int(held[steps])));
    assert_eq!(rt; cell_before(piece), Some(Value::Int(held[0])));
    if piece.end != PieceEnd::OutOfMemory {
        assert_eq!(rt; piece.end, end);
        assert_eq!(rt; steps + 1, held.len());
    }
}

/// The acts go on, on a loan of the Cell, until the List is asked for, and only a locked Cell is changed.
#[test]
fn runs_on_one_cell(rt: HostRuntime) -> Tested {
    let alloc = rt.alloc();
    let acts = [Act::Look(0), Act::Set(0, 5), Act::Push(1), Act::Look(0)];
    let script = script(&rt, alloc, &acts)?;
    let piece = run_piece(alloc, &script, loan_of_cell(alloc, 0, 9, true)?);
    ended(&rt, &piece, &[7, 7, 5], PieceEnd::NeedHeap);
    let piece = run_piece(alloc, &script, loan_of_cell(alloc, 0, 9, false)?);
    ended(&rt, &piece, &[7, 7], PieceEnd::NeedHeap);
    let piece = run_piece(alloc, &script, loan_of_cell(alloc, 0, 2, true)?);
    ended(&rt, &piece, &[7, 7, 5], PieceEnd::Most);
    let piece = run_piece(alloc, &script, loan_of_cell(alloc, 3, 9, true)?);
    ended(&rt, &piece, &[7, 7], PieceEnd::Ended);
    Ok(())
}

/// A write needs the devices.
#[test]
fn stops_where_it_prints(rt: HostRuntime) -> Tested {
    let alloc = rt.alloc();
    let prints = script(&rt, alloc, &[Act::Set(0, 4), Act::Set(0, 6), Act::Put(97)])?;
    let piece = run_piece(alloc, &prints, loan_of_cell(alloc, 0, 9, true)?);
    ended(&rt, &piece, &[7, 4, 6], PieceEnd::NeedSolo);
    assert_eq!(rt; piece.view.edits().len() as u64, piece.steps);
    Ok(())
}

/// The record is a dictionary, if it is here.
fn is_dict(view: &PieceView, d: Addr) -> bool
    ensures { result ≡ true → IfThere true ((piece_state view.now).heap d.0) (λ r. r.kind ≡ Dict) }
{
    match view.record(d.0) {
        Some(r) => match r.kind() {
            Kind::Dict => true,
            _ => false,
        },
        None => true,
    }
}

/// No record is there.
fn is_free(view: &PieceView, a: Addr) -> bool
    ensures { result ≡ true → (piece_state view.now).heap a.0 ≡ None }
{
    match view.record(a.0) {
        Some(_) => false,
        None => true,
    }
}

/// Adds a record, which is not locked.
fn lend(rt: &impl Abort, view: &mut PieceView, a: Addr, r: Entry) -> Result<(), NoMemory> {
    assert!(rt; is_free(view, a));
    view.add(a, r, false)
}

/// Where a key stands in a dictionary, in a step of its own.
#[tactic(auto, unfolding(py_data::specs::Sense::Asks))]
fn search(
    rt: &impl Abort,
    view: &mut PieceView,
    d: Addr,
    key: Value,
) -> Result<Option<usize>, Stop> {
    View::<ScriptState>::open_step(view);
    assert!(rt; is_dict(view, d));
    View::<ScriptState>::find_key(view, d, key)
}

/// A search is answered only where the key and the keys of the dictionary are loaned.
#[test]
fn searches_with_all_keys(rt: HostRuntime) -> Tested {
    let alloc = rt.alloc();
    let pairs = [Value::Int(3), Value::None, Value::Ref(Addr(5)), Value::None];
    let dict = Record {
        kind: Kind::Dict,
        values: Values::from_slice(alloc, &pairs)?,
        bytes: Bytes::new(alloc),
    };
    let text = Record {
        kind: Kind::Str,
        values: Values::new(alloc),
        bytes: Bytes::from_slice(alloc, &[107])?,
    };
    let mut view = PieceView::new(alloc);
    lend(&rt, &mut view, Addr(4), Entry::of(alloc, &dict)?)?;
    assert_eq!(rt;
        search(&rt, &mut view, Addr(4), Value::Int(3)),
        Err(Stop::NeedHeap)
    );
    lend(&rt, &mut view, Addr(5), Entry::of(alloc, &text)?)?;
    assert_eq!(rt; search(&rt, &mut view, Addr(4), Value::Int(3)), Ok(Some(0)));
    lend(&rt, &mut view, Addr(6), Entry::of(alloc, &text)?)?;
    assert_eq!(rt;
        search(&rt, &mut view, Addr(4), Value::Ref(Addr(6))),
        Ok(Some(1))
    );
    assert_eq!(rt;
        search(&rt, &mut view, Addr(4), Value::Ref(Addr(7))),
        Err(Stop::NeedHeap)
    );
    Ok(())
}
