//! Rows that go through lists, tuples, dictionaries, ranges and strings by `next`, item by item up to the end.
use crate::tables::{Tested, table};

const ITEM_BY_ITEM: &[u8] =
    b"1 2 3 [3 iter dup next swap dup next swap dup next swap drop [3 => [1, 2, 3]
1 2 3 [3 iter dup next drop dup next drop dup next drop next => end
1 2 3 (3 iter dup next swap dup next swap dup next swap drop [3 => [1, 2, 3]
1 2 3 (3 iter dup next drop dup next drop dup next drop next => end
1 2 3 4 {2 iter dup next swap dup next swap drop [2 => [1, 3]
1 2 3 4 {2 iter dup next drop dup next drop next => end
1 11 3 range iter dup next swap dup next swap dup next swap dup next swap drop [4 => [1, 4, 7, 10]
1 11 3 range iter dup next drop dup next drop dup next drop dup next drop next => end
'ab' iter dup next swap dup next swap drop [2 => ['a', 'b']
'ab' iter dup next drop dup next drop next => end
[0 iter next => end
{0 iter next => end
'' iter next => end
";

#[test]
fn item_by_item(rt: HostRuntime) -> Tested {
    table(&rt, rt.alloc(), ITEM_BY_ITEM)?;
    Ok(())
}
