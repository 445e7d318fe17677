//! Rows of the methods of lists, dictionaries, locks and threads, and of builtins that can't be called so.
use crate::tables::{Tested, table};

const APPEND_EXTEND_INSERT: &[u8] = b"1 [1 dup 2 .append1 drop => [1, 2]
[0 1 .append1 => None
[0 .append0 => TypeError: wrong arguments
[0 1 2 .append2 => TypeError: wrong arguments
1 [1 dup 'ab' .extend1 drop => [1, 'a', 'b']
1 [1 dup dup .extend1 drop => [1, 1]
[0 1 (1 .extend1 => None
[0 5 .extend1 => TypeError: not iterable
[0 .extend0 => TypeError: wrong arguments
1 2 [2 dup 0 9 .insert2 drop => [9, 1, 2]
1 2 [2 dup 9 9 .insert2 drop => [1, 2, 9]
1 2 [2 dup -1 9 .insert2 drop => [1, 9, 2]
1 2 [2 dup True 9 .insert2 drop => [1, 9, 2]
[0 'a' 9 .insert2 => TypeError: wrong arguments
[0 1 .insert1 => TypeError: wrong arguments
[0 0 1 .insert2 => None
";

const APPEND_EXTEND_INSERT_AT_LIMITS: &[u8] = b"0 x1048576 1 .append1 => MemoryError
0 x1048575 dup 1 .append1 drop :len1 => 1048576
";

const POP_OF_LISTS: &[u8] = b"1 2 3 [3 .pop0 => 3
1 2 3 [3 dup .pop0 drop => [1, 2]
1 2 3 [3 0 .pop1 => 1
1 2 3 [3 -2 .pop1 => 2
1 2 3 [3 True .pop1 => 2
1 2 3 [3 3 .pop1 => IndexError: index out of range
[0 .pop0 => IndexError: pop from empty list
[0 7 .pop1 => IndexError: pop from empty list
1 [1 'a' .pop1 => TypeError: wrong arguments
1 [1 0 1 .pop2 => TypeError: wrong arguments
";

const INDEX_AND_REMOVE: &[u8] = b"5 6 5 [3 5 .index1 => 0
5 6 5 [3 6 .index1 => 1
1 2 [2 True .index1 => 0
'a' 'b' [2 'b' .index1 => 1
1 [1 2 .index1 => ValueError: not in list
[0 1 .index1 => ValueError: not in list
[0 .index0 => TypeError: wrong arguments
1 [1 1 0 .index2 => TypeError: wrong arguments
5 6 5 [3 dup 5 .remove1 drop => [6, 5]
1 [1 1 .remove1 => None
1 [1 2 .remove1 => ValueError: not in list
[0 .remove0 => TypeError: wrong arguments
";

const REVERSE_AND_SORT: &[u8] = b"1 2 3 [3 dup .reverse0 drop => [3, 2, 1]
[0 .reverse0 => None
[0 1 .reverse1 => TypeError: wrong arguments
3 1 2 [3 dup .sort0 drop => [1, 2, 3]
'b' 'a' [2 dup .sort0 drop => ['a', 'b']
1 True 0 [3 dup .sort0 drop => [0, 1, True]
True 1 0 [3 dup .sort0 drop => [0, True, 1]
[0 .sort0 => None
1 'a' [2 .sort0 => TypeError: unsupported operand
None [1 .sort0 => TypeError: unsupported operand
[0 1 .sort1 => TypeError: wrong arguments
";

const DICTIONARIES: &[u8] = b"1 2 {1 1 .get1 => 2
1 2 {1 True .get1 => 2
1 2 {1 3 .get1 => None
1 2 {1 3 9 .get2 => 9
1 2 {1 1 9 .get2 => 2
{0 [0 .get1 => TypeError: unhashable
{0 .get0 => TypeError: wrong arguments
{0 1 2 3 .get3 => TypeError: wrong arguments
1 2 3 4 {2 .keys0 => [1, 3]
1 2 3 4 {2 .values0 => [2, 4]
1 2 3 4 {2 .items0 => [(1, 2), (3, 4)]
{0 .keys0 => []
{0 1 .keys1 => TypeError: wrong arguments
{0 1 .values1 => TypeError: wrong arguments
{0 1 .items1 => TypeError: wrong arguments
1 2 {1 1 .has_key1 => True
1 2 {1 2 .has_key1 => False
{0 [0 .has_key1 => TypeError: unhashable
{0 .has_key0 => TypeError: wrong arguments
1 2 {1 1 .pop1 => 2
1 2 {1 dup 1 .pop1 drop => {}
1 2 3 4 {2 dup 1 .pop1 drop => {3: 4}
1 2 {1 3 .pop1 => KeyError: 3
1 2 {1 'a' .pop1 => KeyError: 'a'
1 2 {1 3 9 .pop2 => 9
1 2 {1 1 9 .pop2 => 2
1 2 {1 dup 1 9 .pop2 drop => {}
{0 {0 .pop1 => TypeError: unhashable
{0 .pop0 => TypeError: wrong arguments
{0 1 2 3 .pop3 => TypeError: wrong arguments
";

const LOCKS_AND_THREADS: &[u8] = b":thread.allocate_lock0 => <lock>
:threading.Lock0 => <lock>
1 :threading.Lock1 => TypeError: wrong arguments
:threading.Lock0 .locked0 => False
:threading.Lock0 dup .acquire0 => True
:threading.Lock0 dup .acquire0 drop .locked0 => True
:threading.Lock0 dup .acquire0 drop 0 .acquire1 => False
:threading.Lock0 dup .acquire0 drop .acquire0 => waits
:threading.Lock0 dup .acquire0 drop 1 .acquire1 => waits
:threading.Lock0 0 .acquire1 => True
:threading.Lock0 dup .acquire0 drop dup .release0 drop .locked0 => False
:threading.Lock0 .release0 => thread.error: release unlocked lock
:threading.Lock0 dup .acquire0 drop .release0 => None
:threading.Lock0 1 .release1 => TypeError: wrong arguments
:threading.Lock0 1 .locked1 => TypeError: wrong arguments
:threading.Lock0 1 2 .acquire2 => TypeError: wrong arguments
:threading.Thread0 => TypeError: wrong arguments
5 :threading.Thread1 => TypeError: wrong arguments
5 (0 :thread.start_new_thread2 => TypeError: wrong arguments
@len (0 :thread.start_new_thread2 => TypeError: wrong arguments
5 :thread.start_new_thread1 => TypeError: wrong arguments
5 5 :thread.start_new_thread2 => TypeError: wrong arguments
:thread0 => TypeError: not callable
:threading0 => TypeError: not callable
";

const A_BUILTIN_METHOD_WITHOUT_A_FITTING_OBJECT: &[u8] =
    b":list.append0 => TypeError: unsupported operand
5 :list.append1 => TypeError: unsupported operand
:str.join0 => TypeError: unsupported operand
:dict.get0 => TypeError: unsupported operand
:lock.acquire0 => TypeError: unsupported operand
:thread.join0 => TypeError: unsupported operand
";

#[test]
fn append_extend_insert(rt: HostRuntime) -> Tested {
    table(&rt, rt.alloc(), APPEND_EXTEND_INSERT)?;
    Ok(())
}

#[test]
fn append_extend_insert_at_limits(rt: HostRuntime) -> Tested {
    table(&rt, rt.alloc(), APPEND_EXTEND_INSERT_AT_LIMITS)?;
    Ok(())
}

#[test]
fn pop_of_lists(rt: HostRuntime) -> Tested {
    table(&rt, rt.alloc(), POP_OF_LISTS)?;
    Ok(())
}

#[test]
fn index_and_remove(rt: HostRuntime) -> Tested {
    table(&rt, rt.alloc(), INDEX_AND_REMOVE)?;
    Ok(())
}

#[test]
fn reverse_and_sort(rt: HostRuntime) -> Tested {
    table(&rt, rt.alloc(), REVERSE_AND_SORT)?;
    Ok(())
}

#[test]
fn dictionaries(rt: HostRuntime) -> Tested {
    table(&rt, rt.alloc(), DICTIONARIES)?;
    Ok(())
}

#[test]
fn locks_and_threads(rt: HostRuntime) -> Tested {
    table(&rt, rt.alloc(), LOCKS_AND_THREADS)?;
    Ok(())
}

#[test]
fn a_builtin_method_without_a_fitting_object(rt: HostRuntime) -> Tested {
    table(&rt, rt.alloc(), A_BUILTIN_METHOD_WITHOUT_A_FITTING_OBJECT)?;
    Ok(())
}
