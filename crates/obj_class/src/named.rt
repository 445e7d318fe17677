//! The builtins that are attributes by their names: the methods of some kinds, and what the modules have.
ghost use Rattle.std.specs.Prelude.{◌≡◌};
ghost use Rattle.obj_class.specs.Named.{is_error, is_thread, member_of, method_of};

use py_base::number_beside;
use py_data::{Kind, builtin};

/// The methods of strings.
const STR_METHODS: [(&[u8], u8); 9] = [
    (b"join", builtin::STR_JOIN),
    (b"split", builtin::STR_SPLIT),
    (b"strip", builtin::STR_STRIP),
    (b"upper", builtin::STR_UPPER),
    (b"lower", builtin::STR_LOWER),
    (b"startswith", builtin::STR_STARTSWITH),
    (b"endswith", builtin::STR_ENDSWITH),
    (b"find", builtin::STR_FIND),
    (b"replace", builtin::STR_REPLACE),
];

/// The methods of lists.
const LIST_METHODS: [(&[u8], u8); 8] = [
    (b"append", builtin::LIST_APPEND),
    (b"pop", builtin::LIST_POP),
    (b"insert", builtin::LIST_INSERT),
    (b"extend", builtin::LIST_EXTEND),
    (b"index", builtin::LIST_INDEX),
    (b"remove", builtin::LIST_REMOVE),
    (b"reverse", builtin::LIST_REVERSE),
    (b"sort", builtin::LIST_SORT),
];

/// The methods of dictionaries.
const DICT_METHODS: [(&[u8], u8); 6] = [
    (b"get", builtin::DICT_GET),
    (b"keys", builtin::DICT_KEYS),
    (b"values", builtin::DICT_VALUES),
    (b"items", builtin::DICT_ITEMS),
    (b"has_key", builtin::DICT_HAS_KEY),
    (b"pop", builtin::DICT_POP),
];

/// The methods of locks.
const LOCK_METHODS: [(&[u8], u8); 3] = [
    (b"acquire", builtin::LOCK_ACQUIRE),
    (b"release", builtin::LOCK_RELEASE),
    (b"locked", builtin::LOCK_LOCKED),
];

/// The methods of threads.
const THREAD_METHODS: [(&[u8], u8); 2] = [
    (b"start", builtin::THREAD_START),
    (b"join", builtin::THREAD_JOIN),
];

/// What the module `thread` has, but for `error`.
const THREAD_MEMBERS: [(&[u8], u8); 2] = [
    (b"start_new_thread", builtin::START_NEW_THREAD),
    (b"allocate_lock", builtin::ALLOCATE_LOCK),
];

/// What the module `threading` has.
const THREADING_MEMBERS: [(&[u8], u8); 2] = [
    (b"Thread", builtin::THREAD),
    (b"Lock", builtin::LOCK),
];

/// The number of the method of that name, of values of a kind.
pub fn method_of(kind: Kind, name: &[u8]) -> Option<u8>
    ensures { result ≡ method_of kind name.now }
{
    match kind {
        Kind::Str => number_beside(&STR_METHODS, name),
        Kind::List => number_beside(&LIST_METHODS, name),
        Kind::Dict => number_beside(&DICT_METHODS, name),
        Kind::Lock => number_beside(&LOCK_METHODS, name),
        Kind::Thread => number_beside(&THREAD_METHODS, name),
        _ => None,
    }
}

/// The number of the builtin of that name in a module; none, where the builtin of number `b` is no module.
pub fn member_of(b: u8, name: &[u8]) -> Option<u8>
    ensures { result ≡ member_of b name.now }
{
    if b == builtin::THREAD_MODULE {
        number_beside(&THREAD_MEMBERS, name)
    } else if b == builtin::THREADING_MODULE {
        number_beside(&THREADING_MEMBERS, name)
    } else {
        None
    }
}

/// Whether the name is that of the class `thread.error`.
pub fn is_error(b: u8, name: &[u8]) -> bool
    ensures { result ≡ is_error b name.now }
{
    b == builtin::THREAD_MODULE && b"error".as_slice() == name
}
