//! Programs of words, as rows write them.
ghost use Rattle.std.specs.Prelude.{◌≤◌, ◌<◌, length, IfOk};
ghost use Rattle.obj_bench.specs.Bench.{Good};

use crate::calls::Putting;
use crate::stacking::{self, Leaf};
use crate::state::{Bench, Halt};
use crate::{calling, classes, looking, operators, pairs, words};
use obj_dict::Part;
use py_base::{builtin_number, skip};
use py_data::{Bytes, Kind, Stop, View};
use py_text::unescape;
use std::alloc::Global;
use std::str;

/// The place behind the word that begins at a place: the next blank outside of quotes, or the end.
fn word_end(program: &[u8], from: usize) -> usize
    requires { from ≤ length program.now }
    ensures from { from ≤ result }
    ensures within { result ≤ length program.now }
{
    let mut quoted = false;
    let mut escaped = false;
    for i in from..program.len() {
        let b = program[i];
        if b == b' ' && !quoted {
            return i;
        }
        if b == b'\'' && !escaped {
            quoted = !quoted;
        }
        escaped = b == b'\\' && !escaped;
    }
    program.len()
}

/// A number in decimal.
fn number(digits: &[u8]) -> Option<i64> {
    match str::from_utf8(digits) {
        Ok(text) => text.parse::<i64>().ok(),
        Err(_) => None,
    }
}

/// A count in decimal, behind the first byte of a word.
fn count(word: &[u8]) -> Option<usize> {
    match number(skip(word, 1)) {
        Some(n) if n >= 0 && n <= 1_048_577 => Some(n as usize),
        _ => None,
    }
}

/// A word that is a value by itself.
fn leaf_of(word: &[u8]) -> Option<Leaf> {
    match word {
        b"None" => Some(Leaf::None),
        b"True" => Some(Leaf::Bool(true)),
        b"False" => Some(Leaf::Bool(false)),
        _ => number(word).map(Leaf::Int),
    }
}

/// A word of one byte and a count: `[n`, `(n`, `{n`, `rN`, `tN`, `xN`, `dN` and `sN`.
fn counted<V: View<u8> + Drop>(bench: Bench<V>, first: u8, n: usize) -> Result<Bench<V>, Halt>
    requires { Good V.sense bench.roots.0 bench.stack bench.view }
    ensures { IfOk result (λ b. Good V.sense b.roots.0 b.stack b.view) }
{
    match first {
        b'[' => stacking::build(bench, Kind::List, n),
        b'(' => stacking::build(bench, Kind::Tuple, n),
        b'{' => stacking::build_dict(bench, n),
        b'r' => stacking::nest(bench, Kind::List, n),
        b't' => stacking::nest(bench, Kind::Tuple, n),
        b'x' => stacking::times(bench, n),
        b'd' => pairs::numbered(bench, n),
        b's' => looking::long_text(bench, n),
        _ => Err(Halt::Bad),
    }
}

/// A word that moves values about the stack, makes one, or looks at values.
fn general<V: View<u8> + Drop>(bench: Bench<V>, word: &[u8]) -> Result<Bench<V>, Halt>
    requires { Good V.sense bench.roots.0 bench.stack bench.view }
    ensures { IfOk result (λ b. Good V.sense b.roots.0 b.stack b.view) }
{
    match word {
        b"dup" => stacking::pick(bench, 0),
        b"swap" => stacking::swap(bench),
        b"drop" => stacking::drop_top(bench),
        b"range" => stacking::range(bench),
        b"is" => stacking::is(bench),
        b"len" => looking::len(bench),
        b"kind" => looking::kind(bench),
        b"repr" => looking::text(bench, true),
        b"str" => looking::text(bench, false),
        b"equal" => looking::equal(bench),
        b"order" => looking::order(bench),
        b"truth" => looking::truth(bench, true),
        b"not" => looking::truth(bench, false),
        _ => operators::operated(bench, word),
    }
}

/// A word for classes and attributes.
fn classed<V: View<u8> + Drop>(bench: Bench<V>, word: &[u8]) -> Result<Bench<V>, Halt>
    requires { Good V.sense bench.roots.0 bench.stack bench.view }
    ensures { IfOk result (λ b. Good V.sense b.roots.0 b.stack b.view) }
{
    match word {
        b"class" => classes::class(bench),
        b"instance" => classes::instance(bench),
        b"def" => classes::function(bench),
        b"attr" => classes::attr(bench),
        b"setattr" => classes::set_attr(bench),
        b"delattr" => classes::del_attr(bench),
        b"issub" => classes::is_sub(bench),
        _ => general(bench, word),
    }
}

/// A word of a mark and the name of a class that every program has: `$NAME`, `!NAME`, `?NAME` and `^NAME`.
fn of_root<V: View<u8> + Drop>(bench: Bench<V>, mark: u8, name: &[u8]) -> Result<Bench<V>, Halt>
    requires { Good V.sense bench.roots.0 bench.stack bench.view }
    ensures { IfOk result (λ b. Good V.sense b.roots.0 b.stack b.view) }
{
    match mark {
        b'$' => classes::root(bench, name),
        _ => classes::fault(bench, mark, name),
    }
}

/// The name of an operation on a list, a tuple, a dictionary or an iterator.
fn operation<V: View<u8> + Drop>(bench: Bench<V>, word: &[u8]) -> Result<Bench<V>, Halt>
    requires { Good V.sense bench.roots.0 bench.stack bench.view }
    ensures { IfOk result (λ b. Good V.sense b.roots.0 b.stack b.view) }
{
    match word {
        b"item" => words::item(bench),
        b"setitem" => words::put(bench, Putting::Over),
        b"delitem" => words::del_item(bench),
        b"pop" => words::pop(bench),
        b"insert" => words::put(bench, Putting::Before),
        b"append" => words::append(bench),
        b"reverse" => words::reverse(bench),
        b"slice" => words::slice(bench),
        b"iter" => words::make_iter(bench),
        b"next" => words::next(bench),
        b"gather" => words::gather(bench),
        b"get" => words::get(bench),
        b"set" => words::set(bench),
        b"del" => words::del(bench),
        b"keys" => words::list_of(bench, Part::Keys),
        b"values" => words::list_of(bench, Part::Values),
        b"items" => words::list_of(bench, Part::Items),
        _ => classed(bench, word),
    }
}

/// A string in quotes.
fn literal<V: View<u8> + Drop>(bench: Bench<V>, word: &[u8]) -> Result<Bench<V>, Halt>
    requires { Good V.sense bench.roots.0 bench.stack bench.view }
    ensures { IfOk result (λ b. Good V.sense b.roots.0 b.stack b.view) }
{
    if word.len() < 2 {
        return Err(Halt::Bad);
    }
    match unescape(bench.alloc, &word[1..word.len() - 1], false) {
        Ok(text) => stacking::text(bench, text),
        Err(_) => Err(Halt::Bad),
    }
}

/// A call of a builtin by its name, or of a method of a value.
fn call_by<V: View<u8> + Drop>(
    bench: Bench<V>,
    mark: u8,
    name: &[u8],
    args: usize,
) -> Result<Bench<V>, Halt>
    requires { Good V.sense bench.roots.0 bench.stack bench.view }
    ensures { IfOk result (λ b. Good V.sense b.roots.0 b.stack b.view) }
{
    match mark {
        b':' => calling::builtin(bench, name, args),
        _ => calling::method(bench, name, args),
    }
}

/// `:NAMEn` and `.NAMEn`: a mark, a name, and the count of the arguments.
fn call_word<V: View<u8> + Drop>(bench: Bench<V>, word: &[u8]) -> Result<Bench<V>, Halt>
    requires good { Good V.sense bench.roots.0 bench.stack bench.view }
    requires long { 1 < length word.now }
    ensures { IfOk result (λ b. Good V.sense b.roots.0 b.stack b.view) }
{
    let last = word.len() - 1;
    match number(&word[last..]) {
        Some(n) if n >= 0 => call_by(bench, word[0], &word[1..last], n as usize),
        _ => Err(Halt::Bad),
    }
}

/// A builtin or a class by its name, a copy of a value of the stack, a call, or another word.
fn named<V: View<u8> + Drop>(bench: Bench<V>, word: &[u8]) -> Result<Bench<V>, Halt>
    requires { Good V.sense bench.roots.0 bench.stack bench.view }
    ensures { IfOk result (λ b. Good V.sense b.roots.0 b.stack b.view) }
{
    if word.starts_with(b"@") {
        return match builtin_number(skip(word, 1)) {
            Some(b) => stacking::push_leaf(bench, Leaf::Builtin(b)),
            None => classes::root(bench, skip(word, 1)),
        };
    }
    if word.starts_with(b"pick") {
        return match count(&word[3..]) {
            Some(n) => stacking::pick(bench, n),
            None => Err(Halt::Bad),
        };
    }
    if word.len() > 2 && matches!(word[0], b'$' | b'!' | b'?' | b'^') {
        return of_root(bench, word[0], skip(word, 1));
    }
    if word.len() > 2 && matches!(word[0], b'.' | b':') {
        return call_word(bench, word);
    }
    operation(bench, word)
}

/// Does a word.
fn done<V: View<u8> + Drop>(bench: Bench<V>, word: &[u8]) -> Result<Bench<V>, Halt>
    requires { Good V.sense bench.roots.0 bench.stack bench.view }
    ensures { IfOk result (λ b. Good V.sense b.roots.0 b.stack b.view) }
{
    if word.is_empty() {
        return Ok(bench);
    }
    if let Some(leaf) = leaf_of(word) {
        return stacking::push_leaf(bench, leaf);
    }
    if word[0] == b'\'' {
        return literal(bench, word);
    }
    match count(word) {
        Some(n) => counted(bench, word[0], n),
        None => named(bench, word),
    }
}

/// Does the words of a program, one after another.
fn through<V: View<u8> + Drop>(bench: Bench<V>, program: &[u8]) -> Result<Bytes, Halt>
    requires { Good V.sense bench.roots.0 bench.stack bench.view }
{
    let mut bench = bench;
    let mut from = 0;
    for _ in 0..program.len() {
        if from >= program.len() {
            break;
        }
        let end = word_end(program, from);
        bench = done(bench, &program[from..end])?;
        from = end + 1;
    }
    looking::shown(bench)
}

/// What a program comes to: the text of the top value at its end, or what stopped it.
pub fn outcome<V: View<u8> + Drop>(
    alloc: Global,
    bench: Bench<V>,
    program: &[u8],
) -> Result<Bytes, Stop>
    requires { Good V.sense bench.roots.0 bench.stack bench.view }
{
    match through(bench, program) {
        Ok(text) => Ok(text),
        Err(Halt::Told(text)) => Ok(text),
        Err(Halt::Bad) => Ok(Bytes::from_slice(alloc, b"bad")?),
        Err(Halt::Stopped(stop)) => Err(stop),
    }
}
