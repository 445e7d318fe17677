//! The words of a new record.
ghost use Rattle.std.specs.Prelude.{◌≡◌, ◌+◌, ◌*◌, ◌/◌, ◌%◌, ◌<◌, ◌≤◌, length};
ghost use Rattle.py_data.specs.Heap.{length_by};
ghost use Rattle.page_table.specs.Lists.{table_of};
ghost use Rattle.paged_store.specs.Words.{size_of, head_word};
ghost use Rattle.paged_store.specs.inner.Writing.{CanPut, with_words, filled_words};

use crate::grow::size_of;
use crate::put::{clear_words, put_bytes, put_header, put_values};
use crate::value::Header;
use page_table::Pages;
use py_data::{Kind, Record};

/// The length of a record that is to be made: the count of its values, and of a Str that of its bytes.
pub(crate) fn length_of(r: &Record) -> u64
    ensures { result ≡ length_by r.now.kind r.now.values r.now.bytes }
{
    match r.kind {
        Kind::Str => r.bytes.len() as u64,
        _ => r.values.len() as u64,
    }
}

/// Writes a new record into places that are ready for it: its header at twice its address, its values or bytes at
/// `body`, and an index with nothing in it at `index`. Where the record has no body, or no index, these are no places.
pub(crate) fn fill(
    pages: &mut Pages,
    k: u8,
    a: u32,
    header: Header,
    body: u32,
    index: u32,
    r: &Record,
)
    requires segment { k < (table_of pages.old).segments }
    requires class { header.index ≤ 21 }
    requires even { 0 < length r.now.values → body % 2 ≡ 0 }
    requires values { 2 * length r.now.values ≤ size_of header.class }
    requires bytes { (length r.now.bytes + 7) / 8 ≤ size_of header.class }
    requires may_head { CanPut k (2 * a) 4 (table_of pages.old) }
    requires may_body { CanPut k body (size_of header.class) (table_of pages.old) }
    requires may_index { CanPut k index (size_of header.index) (table_of pages.old) }
    ensures { let first = head_word header.kind header.class header.index header.first in
        let n = length_by r.now.kind r.now.values r.now.bytes in
        let size = size_of header.index in
        let w = (table_of pages.old).word k in
        let words = filled_words w a first n body index size r.now.values r.now.bytes in
        table_of pages.new ≡ with_words k words (table_of pages.old) }
{
    pages.known();
    put_values(pages, k, body, r.values.as_slice());
    put_bytes(pages, k, body, r.bytes.as_slice());
    clear_words(pages, k, index, size_of(header.index));
    put_header(pages, k, a, header.word(), length_of(r), body, index);
}
