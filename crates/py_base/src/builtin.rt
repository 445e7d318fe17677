//! The numbers of the builtins that are values of their own: functions, types, the modules and methods. The names
//! `True`, `False`, `__name__`, `object` and those of the exceptions are builtins too, and have other values.

/// `len`.
pub const LEN: u8 = 0;

/// `range`.
pub const RANGE: u8 = 1;

/// `xrange`.
pub const XRANGE: u8 = 2;

/// `str`.
pub const STR: u8 = 3;

/// `repr`.
pub const REPR: u8 = 4;

/// `int`.
pub const INT: u8 = 5;

/// `bool`.
pub const BOOL: u8 = 6;

/// `list`.
pub const LIST: u8 = 7;

/// `tuple`.
pub const TUPLE: u8 = 8;

/// `dict`.
pub const DICT: u8 = 9;

/// `isinstance`.
pub const ISINSTANCE: u8 = 10;

/// `ord`.
pub const ORD: u8 = 11;

/// `chr`.
pub const CHR: u8 = 12;

/// `abs`.
pub const ABS: u8 = 13;

/// `min`.
pub const MIN: u8 = 14;

/// `max`.
pub const MAX: u8 = 15;

/// `sum`.
pub const SUM: u8 = 16;

/// `sorted`.
pub const SORTED: u8 = 17;

/// `raw_input`.
pub const RAW_INPUT: u8 = 18;

/// The module `thread`.
pub const THREAD_MODULE: u8 = 19;

/// The module `threading`.
pub const THREADING_MODULE: u8 = 20;

/// `thread.start_new_thread`.
pub const START_NEW_THREAD: u8 = 21;

/// `thread.allocate_lock`.
pub const ALLOCATE_LOCK: u8 = 22;

/// `threading.Thread`.
pub const THREAD: u8 = 23;

/// `threading.Lock`.
pub const LOCK: u8 = 24;

/// `join` of a string.
pub const STR_JOIN: u8 = 25;

/// `split` of a string.
pub const STR_SPLIT: u8 = 26;

/// `strip` of a string.
pub const STR_STRIP: u8 = 27;

/// `upper` of a string.
pub const STR_UPPER: u8 = 28;

/// `lower` of a string.
pub const STR_LOWER: u8 = 29;

/// `startswith` of a string.
pub const STR_STARTSWITH: u8 = 30;

/// `endswith` of a string.
pub const STR_ENDSWITH: u8 = 31;

/// `find` of a string.
pub const STR_FIND: u8 = 32;

/// `replace` of a string.
pub const STR_REPLACE: u8 = 33;

/// `append` of a list.
pub const LIST_APPEND: u8 = 34;

/// `pop` of a list.
pub const LIST_POP: u8 = 35;

/// `insert` of a list.
pub const LIST_INSERT: u8 = 36;

/// `extend` of a list.
pub const LIST_EXTEND: u8 = 37;

/// `index` of a list.
pub const LIST_INDEX: u8 = 38;

/// `remove` of a list.
pub const LIST_REMOVE: u8 = 39;

/// `reverse` of a list.
pub const LIST_REVERSE: u8 = 40;

/// `sort` of a list.
pub const LIST_SORT: u8 = 41;

/// `get` of a dictionary.
pub const DICT_GET: u8 = 42;

/// `keys` of a dictionary.
pub const DICT_KEYS: u8 = 43;

/// `values` of a dictionary.
pub const DICT_VALUES: u8 = 44;

/// `items` of a dictionary.
pub const DICT_ITEMS: u8 = 45;

/// `has_key` of a dictionary.
pub const DICT_HAS_KEY: u8 = 46;

/// `pop` of a dictionary.
pub const DICT_POP: u8 = 47;

/// `acquire` of a lock.
pub const LOCK_ACQUIRE: u8 = 48;

/// `release` of a lock.
pub const LOCK_RELEASE: u8 = 49;

/// `locked` of a lock.
pub const LOCK_LOCKED: u8 = 50;

/// `start` of a thread.
pub const THREAD_START: u8 = 51;

/// `join` of a thread.
pub const THREAD_JOIN: u8 = 52;

/// How many builtins there are.
pub const COUNT: u8 = 53;
