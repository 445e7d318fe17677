//! A view over a map and three devices: the sight of a thread that has the heap for itself.
use crate::given::Given;
use crate::space::Space;
use crate::threads::Threads;
use py_data::{
    Addr, Change, Entry, Head, Kind, LENGTH_LIMIT, Names, NoMemory, Out, Peek, Record, Stop, Value,
    View, find_pair, value_or_unset,
};
use std::alloc::Global;
use stm_io::{PutError, Sink, Source, TakeError};

/// A heap as a map, with the three devices: the view of a machine whose threads take turns. It may print and read at
/// any step, it loses no conflict, and it has no limit of words. It gives the Stops ReadFault, WriteFault, ErrFault
/// and OutOfMemory.
///
/// A change takes time of what it changes, beside the look for the record, and `find_key` goes through the pairs. A
/// new record gets the next planned name; or, where names are free, the first unused one from the last fresh one on.
#[derive(Drop)]
pub struct PlainView<S, I, O, E> {
    alloc: Global,
    space: Space,
    given: Given,
    plan: Names,
    next: usize,
    mark: usize,
    free: bool,
    fresh: u32,
    bad: bool,
    started: Threads<S>,
    stopped: Option<Stop>,
    mid: bool,
    was_mid: bool,
    input: I,
    output: O,
    errors: E,
}

impl<S: Drop, I: Source, O: Sink, E: Sink> PlainView<S, I, O, E> {
    ghost use Rattle.std.specs.Prelude.{◌≡◌, [], None, Some, drop, OnOk, OnErr, ◌++◌, ◌↔◌, ◌<◌, ◌^◌, ◌+◌, length, true, false, IfSome, ◌∷◌, ◌≤◌, slice_get};
    ghost use Rattle.py_data.specs.Collection.{places};
    ghost use Rattle.lock_run.specs.Space.{space_heap, space_base};
    ghost use Rattle.lock_run.specs.PlainState.{NoName, Named};
    ghost use Rattle.lock_run.specs.Given.{given_all, given_kept};
    ghost use Rattle.py_data.specs.Heap.{put_at};
    ghost use Rattle.py_data.specs.Made.{rec_of};

    /// An empty heap over these devices, with a flag that is false and names that are free.
    pub fn new(alloc: Global, input: I, output: O, errors: E) -> Self
        ensures heap { space_heap result.space ≡ (λ _. None) }
        ensures live { result.stopped ≡ None }
        ensures started { result.started ≡ [] }
        ensures mid { result.mid ≡ false }
        ensures devices { (result.input ≡ input) × (result.output ≡ output) × (result.errors ≡ errors) }
    {
        PlainView {
            alloc,
            space: Space::new(alloc),
            given: Given::new(alloc),
            plan: Names::new(alloc),
            next: 0,
            mark: 0,
            free: true,
            fresh: 0,
            bad: false,
            started: Threads::new(alloc),
            stopped: None,
            mid: false,
            was_mid: false,
            input,
            output,
            errors,
        }
    }

    /// Keeps a Stop, and hands it on.
    fn fail(&mut self, stop: Stop) -> Stop
        ensures same { result ≡ stop }
        ensures rest { self.new ≡ record self.old { stopped = Some stop } }
    {
        self.stopped = Some(stop);
        stop
    }

    /// The threads that the step started.
    pub fn started(&self) -> &Threads<S>
        ensures { result.now ≡ self.now.started }
    {
        &self.started
    }

    /// Moves the threads that the step started to the end of others. At want of memory all stay where they are.
    pub fn move_started(&mut self, to: &mut Threads<S>) -> Result<(), NoMemory>
        ensures ok { OnOk result ((to.new ≡ to.old ++ self.old.started) × (self.new.started ≡ [])) }
        ensures err { OnErr result ((to.new ≡ to.old) × (self.new.started ≡ self.old.started)) }
        ensures rest { self.new ≡ record self.old { started = self.new.started } }
    {
        to.append(&mut self.started)
    }

    /// In this step a call lacked a name: none was left, or the next one was used already.
    pub fn is_bad(&self) -> bool
        ensures { result ≡ self.now.bad }
    {
        self.bad
    }

    /// The next records get these names, in order. No name is given yet in this turn.
    pub fn set_plan(&mut self, plan: Names)
        ensures left { places (drop self.new.next self.new.plan) ≡ places plan }
        ensures made { given_all self.new.given ≡ [] }
        ensures kept { given_kept self.new.given ≡ [] }
        ensures rest { self.new ≡ record self.old {
          plan = plan;
          next = 0;
          mark = 0;
          free = false;
          given = self.new.given;
        } }
    {
        self.plan = plan;
        self.next = 0;
        self.mark = 0;
        self.free = false;
        let _ = self.given.take();
    }

    /// The next records get fresh names. No name is given yet in this turn.
    pub fn set_free(&mut self)
        ensures made { given_all self.new.given ≡ [] }
        ensures kept { given_kept self.new.given ≡ [] }
        ensures rest { self.new ≡ record self.old { free = true; given = self.new.given } }
    {
        self.free = true;
        let _ = self.given.take();
    }

    /// Hands out the names that were given in this turn, in order.
    pub fn take_names(&mut self) -> Names
        ensures names { places result ≡ given_all self.old.given }
        ensures rest { self.new ≡ record self.old { given = self.new.given } }
    {
        self.given.take()
    }

    /// Planned names are left.
    pub fn has_names(&self) -> bool
        ensures { result ≡ true ↔ (0 < length (places (drop self.now.next self.now.plan))) }
    {
        self.next < self.plan.len()
    }

    /// The name that the next record gets.
    fn name(&self) -> Option<Addr>
        ensures unused { IfSome result (λ n. space_heap self.now.space n.0 ≡ None) }
        ensures planned { IfSome result (λ n. self.now.free ≡ false → slice_get self.now.plan self.now.next ≡ Some n) }
        ensures within { IfSome result (λ n. self.now.free ≡ false → self.now.next + 1 < 2 ^ 64) }
        ensures none { result ≡ None → self.now.free ≡ false
            → NoName (space_heap self.now.space) (places (drop self.now.next self.now.plan)) }
    {
        if self.free {
            return self.fresh_name();
        }
        let _count = self.plan.len();
        match self.plan.get(self.next) {
            Some(n) => { if self.space.has(n.0) { None } else { Some(*n) } }
            None => None,
        }
    }

    /// A name that no record has, from the last fresh one on.
    fn fresh_name(&self) -> Option<Addr>
        ensures { IfSome result (λ n. space_heap self.now.space n.0 ≡ None) }
    {
        for n in self.fresh..u32::MAX {
            if !self.space.has(n) {
                return Some(Addr(n));
            }
        }
        None
    }

    /// Makes a record at a name.
    fn place(&mut self, n: Addr, r: &Record) -> Result<(), NoMemory>
        requires fresh { space_heap self.old.space n.0 ≡ None }
        requires values { length r.now.values ≤ LENGTH_LIMIT }
        requires bytes { length r.now.bytes ≤ LENGTH_LIMIT }
        ensures ok { OnOk result (space_heap self.new.space ≡ put_at (space_heap self.old.space) n.0 (rec_of r.now)) }
        ensures made { OnOk result (given_all self.new.given ≡ given_all self.old.given ++ n.0 ∷ []) }
        ensures kept { given_kept self.new.given ≡ given_kept self.old.given }
        ensures base { space_base self.new.space ≡ space_base self.old.space }
        ensures rest { self.new ≡ record self.old { space = self.new.space; given = self.new.given } }
    {
        self.given.add(n)?;
        let entry = Entry::of(self.alloc, r)?;
        self.space.add(n.0, entry)?;
        Ok(())
    }

    /// A name was given: the search for a fresh one goes on from there, or the next planned one comes.
    fn pass_name(&mut self, n: Addr)
        requires planned { self.old.free ≡ false → slice_get self.old.plan self.old.next ≡ Some n }
        requires within { self.old.free ≡ false → self.old.next + 1 < 2 ^ 64 }
        ensures left { Named self.old.free n.0 (places (drop self.old.next self.old.plan))
            (places (drop self.new.next self.new.plan)) }
        ensures rest { self.new ≡ record self.old { next = self.new.next; fresh = self.new.fresh } }
    {
        if self.free {
            self.fresh = n.0;
        } else {
            self.next += 1;
        }
    }

    /// The three devices.
    pub fn finish(self) -> (I, O, E)
        ensures { (result.0 ≡ self.input) × (result.1 ≡ self.output) × (result.2 ≡ self.errors) }
    {
        let PlainView {
            alloc: _,
            space: _,
            given: _,
            plan: _,
            next: _,
            mark: _,
            free: _,
            fresh: _,
            bad: _,
            started: _,
            stopped: _,
            mid: _,
            was_mid: _,
            input,
            output,
            errors,
        } = self;
        (input, output, errors)
    }
}

impl<S: Drop, I: Source, O: Sink, E: Sink> View<S> for PlainView<S, I, O, E> {
    ghost use Rattle.std.specs.Prelude.{true, false};
    ghost use Rattle.lock_run.specs.Space.{space_heap};
    ghost use Rattle.lock_run.specs.PlainState.{PlainDoes, PlainRefuses, PlainOpens, PlainUndoes, Still};
    ghost use Rattle.lock_run.specs.PlainSense.{plain_state, plain_sense, plain_bracket};
    ghost use Rattle.lock_run.specs.inner.PlainLaws.{plain_lawful, plain_bracketed};

    ghost sense = { plain_sense I.state O.state E.state };

    ghost bracket = { plain_bracket I.state O.state E.state };

    ghost lawful = { plain_lawful I.state O.state E.state };

    ghost bracketed = { plain_bracketed I.state O.state E.state };

    fn open_step(&mut self) {
        self.space.open();
        self.given.open();
        self.mark = self.next;
        self.was_mid = self.mid;
        self.bad = false;
        self.stopped = None;
        self.started.clear();
    }

    fn undo_step(&mut self) {
        self.space.undo();
        self.given.undo();
        self.next = self.mark;
        self.mid = self.was_mid;
        self.stopped = None;
        self.started.clear();
    }

    fn stopped(&self) -> Option<Stop> {
        self.stopped
    }

    #[tactic(auto, unfolding(py_data::specs::Sense::Asks, py_data::specs::Heap::at))]
    fn kind(&mut self, a: Addr) -> Result<Kind, Stop> {
        match self.space.look(a.0) {
            Some(r) => Ok(r.kind()),
            None => unreachable!(),
        }
    }

    #[tactic(auto, unfolding(py_data::specs::Sense::Asks, py_data::specs::Heap::at))]
    fn len(&mut self, a: Addr) -> Result<usize, Stop> {
        match self.space.look(a.0) {
            Some(r) => Ok(r.values().len()),
            None => unreachable!(),
        }
    }

    #[tactic(auto, unfolding(py_data::specs::Sense::Asks, py_data::specs::Heap::at))]
    fn val(&mut self, a: Addr, i: usize) -> Result<Value, Stop> {
        match self.space.look(a.0) {
            Some(r) => Ok(r.values()[i]),
            None => unreachable!(),
        }
    }

    #[tactic(auto, unfolding(py_data::specs::Sense::Asks, py_data::specs::Heap::at))]
    fn find_val(&mut self, a: Addr, i: usize) -> Result<Value, Stop> {
        match self.space.look(a.0) {
            Some(r) => Ok(value_or_unset(r.values(), i)),
            None => unreachable!(),
        }
    }

    #[tactic(auto, unfolding(py_data::specs::Sense::Asks, py_data::specs::Heap::at))]
    fn head(&mut self, a: Addr) -> Result<Head, Stop> {
        match self.space.look(a.0) {
            Some(r) => Ok(r.head()),
            None => unreachable!(),
        }
    }

    #[tactic(auto, unfolding(py_data::specs::Sense::Asks, py_data::specs::Heap::at))]
    fn byte_len(&mut self, a: Addr) -> Result<usize, Stop> {
        match self.space.look(a.0) {
            Some(r) => Ok(r.bytes().len()),
            None => unreachable!(),
        }
    }

    #[tactic(auto, unfolding(py_data::specs::Sense::Asks, py_data::specs::Heap::at))]
    fn copy_bytes(&mut self, a: Addr, from: usize, out: &mut [u8]) -> Result<(), Stop> {
        match self.space.look(a.0) {
            Some(r) => {
                let bytes = r.bytes();
                out.copy_from_slice(&bytes[from..from + out.len()]);
                Ok(())
            }
            None => unreachable!(),
        }
    }

    #[tactic(auto, unfolding(py_data::specs::Sense::Asks, py_data::specs::Heap::at))]
    fn find_key(&mut self, d: Addr, key: Value) -> Result<Option<usize>, Stop> {
        match self.space.look(d.0) {
            Some(r) => Ok(find_pair(&self.space, r.values(), key)),
            None => unreachable!(),
        }
    }

    #[tactic(auto, unfolding(py_data::specs::Sense::Asks, py_data::specs::Heap::at))]
    fn set_val(&mut self, a: Addr, i: usize, v: Value) -> Result<(), Stop> {
        if self
            .space
            .replace(self.alloc, a.0, Change::Set(i, v))
            .is_ok()
        {
            Ok(())
        } else {
            Err(self.fail(Stop::OutOfMemory))
        }
    }

    #[tactic(auto, unfolding(py_data::specs::Sense::Asks, py_data::specs::Heap::at))]
    fn push_val(&mut self, a: Addr, v: Value) -> Result<(), Stop> {
        if self.space.replace(self.alloc, a.0, Change::Push(v)).is_ok() {
            Ok(())
        } else {
            Err(self.fail(Stop::OutOfMemory))
        }
    }

    #[tactic(auto, unfolding(py_data::specs::Sense::Asks, py_data::specs::Heap::at))]
    fn truncate(&mut self, a: Addr, n: usize) -> Result<(), Stop> {
        if self.space.replace(self.alloc, a.0, Change::Cut(n)).is_ok() {
            Ok(())
        } else {
            Err(self.fail(Stop::OutOfMemory))
        }
    }

    #[tactic(auto, unfolding(py_data::specs::Sense::Asks, py_data::specs::Heap::at))]
    fn push_pair(&mut self, d: Addr, key: Value, v: Value) -> Result<(), Stop> {
        if self
            .space
            .replace(self.alloc, d.0, Change::Pair(key, v))
            .is_ok()
        {
            Ok(())
        } else {
            Err(self.fail(Stop::OutOfMemory))
        }
    }

    #[tactic(auto, unfolding(py_data::specs::Sense::Asks, py_data::specs::Heap::at))]
    fn drop_pair(&mut self, d: Addr, place: usize) -> Result<(), Stop> {
        if self
            .space
            .replace(self.alloc, d.0, Change::Unpair(place))
            .is_ok()
        {
            Ok(())
        } else {
            Err(self.fail(Stop::OutOfMemory))
        }
    }

    #[tactic(auto, unfolding(py_data::specs::Sense::Asks, py_data::specs::Heap::at))]
    fn make(&mut self, r: &Record) -> Result<Addr, Stop> {
        match self.name() {
            Some(n) => {
                if self.place(n, r).is_ok() {
                    self.pass_name(n);
                    Ok(n)
                } else {
                    Err(self.fail(Stop::OutOfMemory))
                }
            }
            None => {
                if !self.free {
                    self.bad = true;
                }
                Err(self.fail(Stop::OutOfMemory))
            }
        }
    }

    fn start_thread(&mut self, s: S) -> Result<(), Stop> {
        if self.started.push(s).is_ok() {
            Ok(())
        } else {
            Err(self.fail(Stop::OutOfMemory))
        }
    }

    fn put(&mut self, on: Out, bytes: &[u8]) -> Result<(), Stop> {
        match on {
            Out::Output => match self.output.put(bytes) {
                Ok(()) => Ok(()),
                Err(PutError::Failed) => Err(self.fail(Stop::WriteFault)),
                Err(PutError::OutOfMemory) => Err(self.fail(Stop::OutOfMemory)),
            },
            Out::ErrorOutput => match self.errors.put(bytes) {
                Ok(()) => Ok(()),
                Err(PutError::Failed) => Err(self.fail(Stop::ErrFault)),
                Err(PutError::OutOfMemory) => Err(self.fail(Stop::OutOfMemory)),
            },
        }
    }

    fn take_line(&mut self, most: usize) -> Result<Vec<u8>, Stop> {
        match self.input.take_line(most) {
            Ok(line) => Ok(line),
            Err(TakeError::Failed) => Err(self.fail(Stop::ReadFault)),
            Err(TakeError::OutOfMemory) => Err(self.fail(Stop::OutOfMemory)),
        }
    }

    fn mid_line(&self) -> bool {
        self.mid
    }

    fn set_mid_line(&mut self, mid: bool) {
        self.mid = mid;
    }
}

impl<S: Drop, I: Source, O: Sink, E: Sink> Peek for PlainView<S, I, O, E> {
    ghost use Rattle.lock_run.specs.Space.{space_heap};

    ghost image = { λ v. space_heap v.space };

    #[tactic(auto, unfolding(py_data::specs::Heap::at))]
    fn peek_kind(&self, a: Addr) -> Kind {
        match self.space.look(a.0) {
            Some(r) => r.kind(),
            None => unreachable!(),
        }
    }

    #[tactic(auto, unfolding(py_data::specs::Heap::at))]
    fn peek_len(&self, a: Addr) -> usize {
        match self.space.look(a.0) {
            Some(r) => match r.kind() {
                Kind::Str => r.bytes().len(),
                _ => r.values().len(),
            },
            None => unreachable!(),
        }
    }

    #[tactic(auto, unfolding(py_data::specs::Heap::at))]
    fn peek_val(&self, a: Addr, i: usize) -> Value {
        match self.space.look(a.0) {
            Some(r) => r.values()[i],
            None => unreachable!(),
        }
    }

    #[tactic(auto, unfolding(py_data::specs::Heap::at))]
    fn peek_byte(&self, a: Addr, i: usize) -> u8 {
        match self.space.look(a.0) {
            Some(r) => r.bytes()[i],
            None => unreachable!(),
        }
    }
}
