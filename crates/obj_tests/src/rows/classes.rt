//! Rows of classes, attributes and exceptions.
use crate::tables::{Tested, table};

const BELOW: &[u8] = b"$KeyError $LookupError issub => True
$LookupError $KeyError issub => False
$KeyError $KeyError issub => True
$KeyError $object issub => True
$object $KeyError issub => False
$object $object issub => True
$ZeroDivisionError $ArithmeticError issub => True
$OverflowError $ArithmeticError issub => True
$OverflowError $LookupError issub => False
$IndexError $LookupError issub => True
$IndexError $KeyError issub => False
$UnboundLocalError $NameError issub => True
$AttributeError $NameError issub => False
$AttributeError $StandardError issub => True
$EOFError $StandardError issub => True
$AssertionError $StandardError issub => True
$MemoryError $StandardError issub => True
$RuntimeError $StandardError issub => True
$StandardError $Exception issub => True
$thread.error $Exception issub => True
$thread.error $StandardError issub => False
$Exception $BaseException issub => True
$BaseException $Exception issub => False
'A' None class dup issub => True
'A' None class $object issub => False
'A' $KeyError class $LookupError issub => True
'A' None class dup 'B' swap class swap issub => True
'A' None class dup 'B' swap class issub => False
";

const ATTRIBUTES: &[u8] =
    b"'A' None class dup 'x' 1 setattr dup instance dup 'x' 2 setattr 'x' attr => 2
'A' None class dup 'x' 1 setattr instance 'x' attr => 1
'A' None class dup 'x' 1 setattr 'B' swap class dup 'x' 2 setattr instance 'x' attr => 2
'A' None class dup 'x' 1 setattr 'B' swap class instance 'x' attr => 1
'A' None class dup 'x' 1 setattr 'x' attr => 1
'A' None class dup 'x' 1 setattr 'B' swap class 'x' attr => 1
'A' None class instance dup 'x' 1 setattr dup 'x' 2 setattr 'x' attr => 2
'A' None class dup instance 'x' 1 setattr 'x' attr => AttributeError: no attribute 'x'
$KeyError dup 'x' 1 setattr 'x' attr => 1
'A' None class instance 'x' attr => AttributeError: no attribute 'x'
'A' None class 'x' attr => AttributeError: no attribute 'x'
'A' None class instance '__class__' attr => AttributeError: no attribute '__class__'
5 'x' attr => AttributeError: no attribute 'x'
None 'x' attr => AttributeError: no attribute 'x'
1 (1 'x' attr => AttributeError: no attribute 'x'
[0 'x' attr => AttributeError: no attribute 'x'
'a' 'x' attr => AttributeError: no attribute 'x'
'f' (0 def 'x' attr => AttributeError: no attribute 'x'
5 'x' 1 setattr => AttributeError: no attribute 'x'
[0 'x' 1 setattr => AttributeError: no attribute 'x'
@len 'x' 1 setattr => AttributeError: no attribute 'x'
'f' (0 def 'x' 1 setattr => AttributeError: no attribute 'x'
";

const DELETIONS: &[u8] =
    b"'A' None class instance dup 'x' 1 setattr dup 'x' delattr 'x' attr => AttributeError: no attribute 'x'
'A' None class dup 'x' 1 setattr instance dup 'x' 2 setattr dup 'x' delattr 'x' attr => 1
'A' None class dup 'x' 1 setattr dup 'x' delattr 'x' attr => AttributeError: no attribute 'x'
'A' None class dup 'x' 1 setattr instance 'x' delattr => AttributeError: no attribute 'x'
'A' None class instance 'x' delattr => AttributeError: no attribute 'x'
5 'x' delattr => AttributeError: no attribute 'x'
'a' 'join' delattr => AttributeError: no attribute 'join'
'A' None class instance dup 'x' 1 setattr dup 'y' 2 setattr dup 'x' delattr 'y' attr => 2
'a' !IndexError dup 'args' delattr str => ''
";

const METHODS: &[u8] = b"'ab' 'join' attr => <method str.join>
[0 'append' attr => <method list.append>
[0 'sort' attr => <method list.sort>
{0 'keys' attr => <method dict.keys>
[0 'keys' attr => AttributeError: no attribute 'keys'
{0 'append' attr => AttributeError: no attribute 'append'
1 (1 'index' attr => AttributeError: no attribute 'index'
@thread 'start_new_thread' attr => <built-in thread.start_new_thread>
@thread 'allocate_lock' attr => <built-in thread.allocate_lock>
@thread 'error' attr => <class error>
@thread 'Lock' attr => AttributeError: no attribute 'Lock'
@threading 'Lock' attr => <built-in threading.Lock>
@threading 'Thread' attr => <built-in threading.Thread>
@threading 'error' attr => AttributeError: no attribute 'error'
@len 'error' attr => AttributeError: no attribute 'error'
'A' None class dup 'f' 'f' (0 def setattr instance 'f' attr => <method f>
'A' None class dup 'f' 'f' (0 def setattr 'B' swap class instance 'f' attr => <method f>
'A' None class dup 'f' 'f' (0 def setattr 'f' attr => <function f>
'A' None class instance dup 'f' 'f' (0 def setattr 'f' attr => <function f>
'A' None class dup 'f' @len setattr instance 'f' attr => <built-in len>
";

const TEXTS: &[u8] = b"'index out of range' !IndexError str => 'index out of range'
'pop from empty list' !IndexError str => 'pop from empty list'
None ^MemoryError str => ''
'not iterable' !TypeError str => 'not iterable'
'integer division or modulo by zero' !ZeroDivisionError str => 'integer division or modulo by zero'
'integer overflow' !OverflowError str => 'integer overflow'
'empty separator' !ValueError str => 'empty separator'
'maximum recursion depth exceeded' !RuntimeError str => 'maximum recursion depth exceeded'
'no attribute \\'x\\'' !AttributeError str => \"no attribute 'x'\"
'' !ValueError str => ''
1 ?KeyError str => '1'
'a' ?KeyError str => \"'a'\"
'a' ?IndexError str => 'a'
1 2 (2 ?KeyError str => '(1, 2)'
'a' !IndexError 'args' attr => ('a',)
1 ?KeyError 'args' attr => (1,)
None ^MemoryError 'args' attr => ()
'a' !IndexError => <IndexError instance>
'a' !thread.error => <error instance>
'a' !IndexError [1 str => '[<IndexError instance>]'
'a' !IndexError repr => '<IndexError instance>'
$KeyError => <class KeyError>
$thread.error => <class error>
'%s' 'a' !IndexError % => 'a'
'%s!' 'a' ?KeyError % => \"'a'!\"
";

const ARGUMENTS: &[u8] = b"$Exception instance str => ''
$Exception instance dup 'args' (0 setattr str => ''
$Exception instance dup 'args' 'a' (1 setattr str => 'a'
$Exception instance dup 'args' 1 2 (2 setattr str => '(1, 2)'
$Exception instance dup 'args' 'a' 'b' (2 setattr str => \"('a', 'b')\"
$Exception instance dup 'args' 5 setattr str => ''
$Exception instance dup 'args' 'a' setattr str => ''
$Exception instance dup 'args' 1 [1 setattr str => ''
$Exception instance dup 'arg' 'a' (1 setattr str => ''
$Exception instance dup 'x' 1 setattr dup 'args' 'a' (1 setattr str => 'a'
$Exception dup 'args' 'a' (1 setattr instance str => ''
$KeyError instance dup 'args' 'a' (1 setattr str => \"'a'\"
$KeyError instance dup 'args' 'a' 1 (2 setattr str => \"('a', 1)\"
$LookupError instance dup 'args' 'a' (1 setattr str => 'a'
'K' $KeyError class instance dup 'args' 'a' (1 setattr str => \"'a'\"
'E' $Exception class instance dup 'args' 'a' (1 setattr str => 'a'
'A' None class instance dup 'args' 'a' (1 setattr str => '<A instance>'
'A' $object class instance dup 'args' 'a' (1 setattr str => '<A instance>'
'a' !IndexError ?ValueError str => 'a'
'a' ?KeyError ?ValueError str => \"'a'\"
'a' !IndexError ?KeyError str => '<IndexError instance>'
'a' !IndexError 1 (2 ?ValueError str => '(<IndexError instance>, 1)'
$Exception instance dup 'args' pick1 (1 setattr str => RuntimeError: maximum recursion depth exceeded
$Exception instance dup 'args' pick1 1 (2 setattr str => '(<Exception instance>, 1)'
None r99 ?ValueError str len => 202
None r100 ?ValueError str => RuntimeError: maximum recursion depth exceeded
None r98 ?ValueError ?ValueError str len => 200
None r99 ?ValueError ?ValueError str => RuntimeError: maximum recursion depth exceeded
";

#[test]
fn below(rt: HostRuntime) -> Tested {
    table(&rt, rt.alloc(), BELOW)?;
    Ok(())
}

#[test]
fn attributes(rt: HostRuntime) -> Tested {
    table(&rt, rt.alloc(), ATTRIBUTES)?;
    Ok(())
}

#[test]
fn deletions(rt: HostRuntime) -> Tested {
    table(&rt, rt.alloc(), DELETIONS)?;
    Ok(())
}

#[test]
fn methods(rt: HostRuntime) -> Tested {
    table(&rt, rt.alloc(), METHODS)?;
    Ok(())
}

#[test]
fn texts(rt: HostRuntime) -> Tested {
    table(&rt, rt.alloc(), TEXTS)?;
    Ok(())
}

#[test]
fn arguments(rt: HostRuntime) -> Tested {
    table(&rt, rt.alloc(), ARGUMENTS)?;
    Ok(())
}
