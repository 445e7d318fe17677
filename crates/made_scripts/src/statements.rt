//! The forms of statements. A line end in a form goes on at the margin of the line on which the form begins.

use crate::draws::Draws;
use crate::forms::Hole;

/// Each loop ends: it goes through a copy, or counts down a name that no statement in it has.
const STATEMENTS: [&str; 42] = [
    "a = @n",
    "b = @n",
    "c = @n",
    "a, b = @n, @n",
    "a, (b, c) = @n, [@n, @n]",
    "a = b = @n",
    "a += @n; a %= 1000",
    "b -= @n; b %= 1000",
    "c *= @n; c %= 1000",
    "a ^= @n; b |= 1; c &= 255",
    "w = @x",
    "w = (w + @x)[:30]",
    "xs = @l",
    "xs.append(@n); xs = xs[-6:]",
    "xs.extend(@l); xs = xs[-6:]",
    "xs.insert(@n, @n); xs = xs[-6:]",
    "xs += @l; xs = xs[-6:]",
    "xs.sort()",
    "xs.reverse()",
    "if xs: print xs.pop()",
    "if len(xs) > 1:\n    xs[0], xs[-1] = xs[-1], @n\n    del xs[0]",
    "d[@n % 5] = @v",
    "d[(@x)[:2]] = @n",
    "d = {@n: @v, 'k': @n}",
    "for e in d.keys(): print e, d[e],",
    "for a, b in [(@n, @n), (@n, 3)]:\n    print a, b\n    @o",
    "print @v",
    "print @v, @v",
    "print @v,",
    "print\nprint repr(@v)",
    "print len(d), d.get(@n), d.values()",
    "if @t:\n    @b",
    "if @t:\n    @b\nelse:\n    @b",
    "if @t: print @v\nelif @t:\n    @b\nelse: pass",
    "for a in range(@k):\n    @b\n    @o",
    "for c in @l:\n    @o\n    @s\nelse:\n    print 'else', c",
    "n@i = @k\nwhile n@i > 0:\n    n@i -= 1\n    @b\n    @o",
    "n@i = @k\nwhile n@i:\n    n@i -= 1\n    @o\nelse:\n    @s",
    "try:\n    @b\n    @r\nexcept @e, e:\n    print 'caught', e\n    @s\nexcept:\n    @b",
    "try:\n    @r\nexcept @e:\n    @s\nelse:\n    @s\nfinally:\n    print 'finally'",
    "try:\n    try:\n        @r\n    finally:\n        @s\nexcept Exception as e:\n    print str(e)",
    "del c\ntry:\n    print c\nexcept NameError, e:\n    print e\nc = @n",
];

/// Statements without a hole.
const PLAIN_STATEMENTS: [&str; 7] = [
    "pass",
    "a = (a + 1) % 50",
    "b, c = c, b",
    "print a",
    "print w, xs",
    "assert w == w, 'same'",
    "xs = xs[1:] + [c]",
];

const BLOCKS: [&str; 3] = ["@s", "@s\n@s", "@s\n@s\n@s"];

const LOOPED: [&str; 5] = [
    "@s",
    "if @t: break",
    "if @t: continue",
    "try:\n    if @t: continue\n    @s\nexcept ValueError:\n    break",
    "try:\n    @s\nfinally:\n    if @t: break",
];

const FUNCTION: [&str; 8] = [
    "@s",
    "@s",
    "if @t: return @n",
    "for a in range(@k):\n    @f\n    @o",
    "try:\n    @r\n    return @n\nfinally:\n    @s",
    "try:\n    @r\nexcept @e:\n    return @n",
    "try:\n    @f\n    @r\nexcept @e:\n    @f\n    raise",
    "n@i = @k\nwhile n@i:\n    n@i -= 1\n    @f",
];

const RAISING: [&str; 24] = [
    "[][@n]",
    "1 / (@n % 2)",
    "{}[@n]",
    "'a' + 1",
    "None.x",
    "raise ValueError, @x",
    "raise KeyError(@n)",
    "raise Trouble(@x)",
    "raise IndexError",
    "int(@x)",
    "xs.index(@n)",
    "xs.remove(@n)",
    "xs[@n] = @n",
    "del d[@n]",
    "assert @t, @x",
    "a, b = @l",
    "min([])",
    "sorted([1, 'a'])",
    "@n < nowhere",
    "f()",
    "f(1, 2, 3, z=4)",
    "raise @n",
    "print raw_input(@x)",
    "'%d' % @x",
];

const FAULTS: [&str; 8] = [
    "ValueError",
    "KeyError",
    "(IndexError, TypeError)",
    "ZeroDivisionError",
    "LookupError",
    "Trouble",
    "StandardError",
    "Exception",
];

const CALLS: [&str; 14] = [
    "print f(@n)",
    "print f(@n, @n), g(@n)",
    "a = f(y=@n, x=@n) % 1000",
    "c = g(@n, z=@n) % 1000",
    "print r(@k), r(@n % 9)",
    "k = A(@n, @v)",
    "k = B(@n)",
    "print k.grow(), k.grow(@n), k.tell()",
    "k.x = @n; k.z = @v\nprint k.z, k.size",
    "A.size = @n\nprint A.size, B.size, isinstance(k, A)",
    "h = k.grow\nprint h(by=@n)",
    "for a in range(@k):\n    @c\n    @o",
    "try:\n    @c\n    @r\nexcept @e, e:\n    print e\n    @c",
    "if @t:\n    @c\nelse:\n    @c",
];

/// What a thread does: with the lock in hand or without, on data that all have and on its own.
const WORKER: [&str; 14] = [
    "@s",
    "guard.acquire()\ntotal[0] += i + @k\nguard.release()",
    "guard.acquire()\ntry:\n    shared[i] = @v\n    @s\nfinally:\n    guard.release()",
    "total[0] += @k",
    "total[1] = (total[1] * 3 + i) % 1000",
    "shared[@n % 3] = shared.get(@n % 3, 0) and 1",
    "shared['all'] = @v",
    "own[i] += 1; own[i] *= 2",
    "print 'thread', i, @v",
    "if guard.acquire(False):\n    total[0] -= 1\n    guard.release()",
    "k.grow(i)",
    "if len(log) < 20: log.append((i, @n))",
    "w = str(shared.keys()[:3])",
    "xs.append(total[0]); xs = xs[-6:]",
];

const PLAIN_WORKER: [&str; 3] = ["total[0] += 1", "own[i] = a", "k.x = i"];

/// A form of a statement for a hole.
pub(crate) fn statement(draws: &mut Draws, hole: Hole) -> &'static str {
    match hole {
        Hole::Block => draws.one_of(&BLOCKS),
        Hole::Looped => draws.one_of(&LOOPED),
        Hole::Function => draws.one_of(&FUNCTION),
        Hole::Raising => draws.one_of(&RAISING),
        Hole::Fault => draws.one_of(&FAULTS),
        Hole::Call => draws.one_of(&CALLS),
        Hole::Worker => draws.one_of(&WORKER),
        _ => draws.one_of(&STATEMENTS),
    }
}

/// A form of a statement that has no hole.
pub(crate) fn plain_statement(draws: &mut Draws, hole: Hole) -> &'static str {
    match hole {
        Hole::Fault => draws.one_of(&FAULTS),
        Hole::Worker => draws.one_of(&PLAIN_WORKER),
        _ => draws.one_of(&PLAIN_STATEMENTS),
    }
}
