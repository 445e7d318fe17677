//! What has a number, with its names: each table has the names in the order of the numbers, each beside its number.
ghost use Rattle.std.specs.Prelude.{◌≡◌, map, option_map, slice_get};
ghost use Rattle.py_base.specs.Numbers.{binary_signs, builtin_names, class_names, compare_signs, number_beside, number_in, unary_signs};

use crate::operator::{binary, compare, unary};
use crate::{builtin, exception};

/// The operators of UNARY.
const UNARY_SIGNS: [(&[u8], u8); 3] = [
    (b"+", unary::PLUS),
    (b"-", unary::MINUS),
    (b"~", unary::INVERT),
];

/// The operators of BINARY and INPLACE.
const BINARY_SIGNS: [(&[u8], u8); 12] = [
    (b"|", binary::OR),
    (b"^", binary::XOR),
    (b"&", binary::AND),
    (b"<<", binary::SHIFT_LEFT),
    (b">>", binary::SHIFT_RIGHT),
    (b"+", binary::ADD),
    (b"-", binary::SUBTRACT),
    (b"*", binary::MULTIPLY),
    (b"/", binary::DIVIDE),
    (b"//", binary::FLOOR_DIVIDE),
    (b"%", binary::REMAINDER),
    (b"**", binary::POWER),
];

/// The operators of COMPARE.
const COMPARE_SIGNS: [(&[u8], u8); 10] = [
    (b"<", compare::LESS),
    (b">", compare::GREATER),
    (b"==", compare::EQUAL),
    (b">=", compare::GREATER_EQUAL),
    (b"<=", compare::LESS_EQUAL),
    (b"!=", compare::NOT_EQUAL),
    (b"in", compare::IN),
    (b"not in", compare::NOT_IN),
    (b"is", compare::IS),
    (b"is not", compare::IS_NOT),
];

/// The classes that every program has.
const CLASS_NAMES: [(&[u8], u8); 20] = [
    (b"object", exception::OBJECT),
    (b"BaseException", exception::BASE_EXCEPTION),
    (b"Exception", exception::EXCEPTION),
    (b"StandardError", exception::STANDARD_ERROR),
    (b"ArithmeticError", exception::ARITHMETIC_ERROR),
    (b"LookupError", exception::LOOKUP_ERROR),
    (b"NameError", exception::NAME_ERROR),
    (b"AttributeError", exception::ATTRIBUTE_ERROR),
    (b"TypeError", exception::TYPE_ERROR),
    (b"ValueError", exception::VALUE_ERROR),
    (b"RuntimeError", exception::RUNTIME_ERROR),
    (b"EOFError", exception::EOF_ERROR),
    (b"AssertionError", exception::ASSERTION_ERROR),
    (b"MemoryError", exception::MEMORY_ERROR),
    (b"ZeroDivisionError", exception::ZERO_DIVISION_ERROR),
    (b"OverflowError", exception::OVERFLOW_ERROR),
    (b"IndexError", exception::INDEX_ERROR),
    (b"KeyError", exception::KEY_ERROR),
    (b"UnboundLocalError", exception::UNBOUND_LOCAL_ERROR),
    (b"thread.error", exception::THREAD_ERROR),
];

/// The builtins.
const BUILTIN_NAMES: [(&[u8], u8); 53] = [
    (b"len", builtin::LEN),
    (b"range", builtin::RANGE),
    (b"xrange", builtin::XRANGE),
    (b"str", builtin::STR),
    (b"repr", builtin::REPR),
    (b"int", builtin::INT),
    (b"bool", builtin::BOOL),
    (b"list", builtin::LIST),
    (b"tuple", builtin::TUPLE),
    (b"dict", builtin::DICT),
    (b"isinstance", builtin::ISINSTANCE),
    (b"ord", builtin::ORD),
    (b"chr", builtin::CHR),
    (b"abs", builtin::ABS),
    (b"min", builtin::MIN),
    (b"max", builtin::MAX),
    (b"sum", builtin::SUM),
    (b"sorted", builtin::SORTED),
    (b"raw_input", builtin::RAW_INPUT),
    (b"thread", builtin::THREAD_MODULE),
    (b"threading", builtin::THREADING_MODULE),
    (b"thread.start_new_thread", builtin::START_NEW_THREAD),
    (b"thread.allocate_lock", builtin::ALLOCATE_LOCK),
    (b"threading.Thread", builtin::THREAD),
    (b"threading.Lock", builtin::LOCK),
    (b"str.join", builtin::STR_JOIN),
    (b"str.split", builtin::STR_SPLIT),
    (b"str.strip", builtin::STR_STRIP),
    (b"str.upper", builtin::STR_UPPER),
    (b"str.lower", builtin::STR_LOWER),
    (b"str.startswith", builtin::STR_STARTSWITH),
    (b"str.endswith", builtin::STR_ENDSWITH),
    (b"str.find", builtin::STR_FIND),
    (b"str.replace", builtin::STR_REPLACE),
    (b"list.append", builtin::LIST_APPEND),
    (b"list.pop", builtin::LIST_POP),
    (b"list.insert", builtin::LIST_INSERT),
    (b"list.extend", builtin::LIST_EXTEND),
    (b"list.index", builtin::LIST_INDEX),
    (b"list.remove", builtin::LIST_REMOVE),
    (b"list.reverse", builtin::LIST_REVERSE),
    (b"list.sort", builtin::LIST_SORT),
    (b"dict.get", builtin::DICT_GET),
    (b"dict.keys", builtin::DICT_KEYS),
    (b"dict.values", builtin::DICT_VALUES),
    (b"dict.items", builtin::DICT_ITEMS),
    (b"dict.has_key", builtin::DICT_HAS_KEY),
    (b"dict.pop", builtin::DICT_POP),
    (b"lock.acquire", builtin::LOCK_ACQUIRE),
    (b"lock.release", builtin::LOCK_RELEASE),
    (b"lock.locked", builtin::LOCK_LOCKED),
    (b"thread.start", builtin::THREAD_START),
    (b"thread.join", builtin::THREAD_JOIN),
];

/// The name at that place of a table, if there is one.
fn name(table: &[(&'static [u8], u8)], n: u8) -> Option<&'static [u8]>
    ensures { option_map (λ x. x.now) result ≡ slice_get (map (λ e. e.0.now) table.now) n }
{
    match table.get(n as usize) {
        Some(entry) => Some(entry.0),
        None => None,
    }
}

/// The number beside that name in a table, if the name is there; of several the first.
pub fn number_beside(table: &[(&'static [u8], u8)], name: &[u8]) -> Option<u8>
    ensures { result ≡ number_beside (map (λ e. (e.1, e.0.now)) table.now) name.now }
{
    for entry in table {
        if entry.0 == name {
            return Some(entry.1);
        }
    }
    None
}

/// The sign of the operator of UNARY of that number, if there is one.
pub fn unary_sign(n: u8) -> Option<&'static [u8]>
    ensures { option_map (λ x. x.now) result ≡ slice_get unary_signs n }
{
    name(&UNARY_SIGNS, n)
}

/// The number of the operator of UNARY of that sign, if there is one.
pub fn unary_number(sign: &[u8]) -> Option<u8>
    ensures { result ≡ number_in unary_signs sign.now }
{
    number_beside(&UNARY_SIGNS, sign)
}

/// The sign of the operator of BINARY and INPLACE of that number, if there is one.
pub fn binary_sign(n: u8) -> Option<&'static [u8]>
    ensures { option_map (λ x. x.now) result ≡ slice_get binary_signs n }
{
    name(&BINARY_SIGNS, n)
}

/// The number of the operator of BINARY and INPLACE of that sign, if there is one.
pub fn binary_number(sign: &[u8]) -> Option<u8>
    ensures { result ≡ number_in binary_signs sign.now }
{
    number_beside(&BINARY_SIGNS, sign)
}

/// The sign of the operator of COMPARE of that number, if there is one.
pub fn compare_sign(n: u8) -> Option<&'static [u8]>
    ensures { option_map (λ x. x.now) result ≡ slice_get compare_signs n }
{
    name(&COMPARE_SIGNS, n)
}

/// The number of the operator of COMPARE of that sign, if there is one.
pub fn compare_number(sign: &[u8]) -> Option<u8>
    ensures { result ≡ number_in compare_signs sign.now }
{
    number_beside(&COMPARE_SIGNS, sign)
}

/// The name of the class of that number, if there is one.
pub fn class_name(n: u8) -> Option<&'static [u8]>
    ensures { option_map (λ x. x.now) result ≡ slice_get class_names n }
{
    name(&CLASS_NAMES, n)
}

/// The number of the class of that name, if there is one.
pub fn class_number(name: &[u8]) -> Option<u8>
    ensures { result ≡ number_in class_names name.now }
{
    number_beside(&CLASS_NAMES, name)
}

/// The name of the builtin of that number, if there is one.
pub fn builtin_name(n: u8) -> Option<&'static [u8]>
    ensures { option_map (λ x. x.now) result ≡ slice_get builtin_names n }
{
    name(&BUILTIN_NAMES, n)
}

/// The number of the builtin of that name, if there is one.
pub fn builtin_number(name: &[u8]) -> Option<u8>
    ensures { result ≡ number_in builtin_names name.now }
{
    number_beside(&BUILTIN_NAMES, name)
}
