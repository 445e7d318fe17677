//! Programs, each made of a number.
ghost use Rattle.std.specs.Prelude.{◌≤◌, IfOk, vec_len};

use crate::draws::Draws;
use crate::writer::{Writer, add};
use std::alloc::{AllocError, Global};

/// How many bytes a program has at most.
pub const PROGRAM_LIMIT: usize = 6_000;

/// What each program begins with: its names, its classes and its functions.
const START: &str = "import thread, threading
a, b, c = @k, @k, 7
xs, d, w, u = [1, 2, 3], {1: 'one', 'b': 2}, 'ab c', (1, 'b')
class Trouble(ValueError):
    pass
class A(object):
    size = @k
    def __init__(self, x, y='why'):
        self.x = x
        self.y = y
    def grow(self, by=@k):
        self.x = (self.x * 3 + by) % 1000
        return self.x + self.size
    def tell(self):
        return '%s %d' % (self.y, self.x)
class B(A):
    def tell(self):
        return 'b' + A.tell(self)
k = A(@k)
def r(n):
    if n < 1: return @k
    return (r(n - 1) + n) % 1000
";

/// Two functions, the second of which calls the first.
const FUNCTIONS: &str = "def f(x, y=@k):
    a, b, c, xs, d, w, u = x, y, @k, [x, y], {x: y}, 'f', (x,)
    @f
    @f
    return @n
def g(x, y=2, z=@k):
    global c, w
    a, b, xs, d, u = x, y, [z], {}, ()
    @f
    return (f(y, x) + z) % 1000
";

/// What threads do, on data that they share and on their own.
const WORK: &str = "guard = threading.Lock()
total, shared, own, log = [0, 0], {}, [0, 0, 0, 0], []
def work(i, times):
    a, b, c, xs, d, w, u = i, times, @k, [i], {}, 'w', ()
    for j in range(times):
        @w
        @w
        @o
    @w
def run(i, times, end):
    try:
        work(i, times)
    finally:
        end.release()
";

/// Two to four threads are started and waited for.
const STARTED: [&str; 2] = [
    "ts = []
for t in range(2 + @k / 2):
    ts.append(threading.Thread(target=work, args=(t, @k)))
    ts[t].start()
@s
for t in ts: t.join()
print total, shared, own, log
",
    "ends = []
for t in range(2 + @k / 2):
    ends.append(thread.allocate_lock())
    ends[t].acquire()
    thread.start_new_thread(run, (t, @k, ends[t]))
@s
for t in ends: t.acquire()
print total, shared, own, log
",
];

/// What stands in the module. Most of what raises is caught, so that the program goes on.
const PIECES: [&str; 4] = [
    "@s\n",
    "@c\n",
    "try:\n    @c\n    @c\nexcept Exception, e:\n    print 'raised', e\n",
    "try:\n    @s\n    @c\nexcept StandardError, e:\n    print e\nelse:\n    @s\n",
];

/// How many forms are drawn into one another at most.
const LEVEL: u8 = 4;

/// A program of the language.
#[derive(Debug, Drop)]
pub struct MadeProgram {
    pub text: Vec<u8>,
    /// It starts threads, so it may have more than one right answer.
    pub is_threaded: bool,
}

/// Adds a form, whose holes are filled, to a program, if there is room for it.
fn add_form(
    alloc: Global,
    text: &mut Vec<u8>,
    draws: &mut Draws,
    form: &str,
) -> Result<(), AllocError>
    requires { vec_len text.old ≤ PROGRAM_LIMIT }
    ensures { vec_len text.new ≤ PROGRAM_LIMIT }
{
    let mut writer = Writer::new(alloc, *draws);
    writer.fill(form, LEVEL)?;
    let (piece, left) = writer.finish();
    *draws = left;
    add(text, piece.as_slice(), PROGRAM_LIMIT)
}

/// Adds statements of the module.
fn add_pieces(
    alloc: Global,
    text: &mut Vec<u8>,
    draws: &mut Draws,
    count: u32,
) -> Result<(), AllocError>
    requires { vec_len text.old ≤ PROGRAM_LIMIT }
    ensures { vec_len text.new ≤ PROGRAM_LIMIT }
{
    for _ in 0..count {
        let form = draws.one_of(&PIECES);
        add_form(alloc, text, draws, form)?;
    }
    Ok(())
}

/// Adds the threads.
fn add_threads(alloc: Global, text: &mut Vec<u8>, draws: &mut Draws) -> Result<(), AllocError>
    requires { vec_len text.old ≤ PROGRAM_LIMIT }
    ensures { vec_len text.new ≤ PROGRAM_LIMIT }
{
    add_form(alloc, text, draws, WORK)?;
    let form = draws.one_of(&STARTED);
    add_form(alloc, text, draws, form)
}

/// The text of a program, with threads or without.
fn program_text(alloc: Global, draws: &mut Draws, is_threaded: bool) -> Result<Vec<u8>, AllocError>
    ensures { IfOk result (λ text. vec_len text ≤ PROGRAM_LIMIT) }
{
    let mut text = Vec::new(alloc);
    add_form(alloc, &mut text, draws, START)?;
    add_form(alloc, &mut text, draws, FUNCTIONS)?;
    let count = draws.below(3);
    add_pieces(alloc, &mut text, draws, count)?;
    if is_threaded {
        add_threads(alloc, &mut text, draws)?;
    }
    let count = 1 + draws.below(3);
    add_pieces(alloc, &mut text, draws, count)?;
    Ok(text)
}

/// The program of a number. It ends by itself, within some thousand steps.
pub fn made_program(alloc: Global, number: u64) -> Result<MadeProgram, AllocError>
    ensures { IfOk result (λ program. vec_len program.text ≤ PROGRAM_LIMIT) }
{
    let mut draws = Draws::new(number);
    let is_threaded = draws.below(4) == 0;
    let text = program_text(alloc, &mut draws, is_threaded)?;
    Ok(MadeProgram { text, is_threaded })
}
