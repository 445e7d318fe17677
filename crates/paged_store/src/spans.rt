//! Words of spans and extents that are published, restored or written back, and extents that are given back.
ghost use Rattle.std.specs.Prelude.{◌≡◌, ◌<◌, length};
ghost use Rattle.page_table.specs.Lists.{table_of};
ghost use Rattle.paged_store.specs.Paged.{in_spans, in_extents, rewound};
ghost use Rattle.paged_store.specs.inner.Ending.{SpansLie, ExtentsLie, HaveClasses, LieSideBySide, NotesLie, HaveRoom, pushes, restores, with_words, GivenBack};

use crate::extent::{Extent, Note, Span};
use page_table::Pages;

/// The extents from one of a list on that lie side by side, each where the one before it ends: where the list goes on
/// behind them, and the words that they have.
pub fn run_of(pages: &Pages, extents: &[Extent], from: usize) -> (usize, Span)
    requires lie { ExtentsLie (table_of pages.now).reserved extents.now }
    requires classes { HaveClasses extents.now }
    requires from { from < length extents.now }
    ensures { LieSideBySide (table_of pages.now).reserved extents.now from result.0 result.1.place result.1.words }
{
    pages.known();
    let place = extents[from].place;
    let mut words = extents[from].words();
    let mut to = from + 1;
    'run: while to < extents.len() && extents[to].place == place + words {
        words += extents[to].words();
        to += 1;
    }
    (to, Span { place, words })
}

/// Copies a segment's words of spans into the shared words, and into every other segment's pages.
pub fn push_spans(pages: &mut Pages, k: u8, spans: &[Span])
    requires segment { k < (table_of pages.old).segments }
    requires lie { SpansLie (table_of pages.old).reserved spans.now }
    ensures { table_of pages.new ≡ pushes k (in_spans spans.now) (table_of pages.old) }
{
    'spans: for span in spans {
        pages.push_words(k, span.place, span.words);
    }
}

/// The same of extents.
pub fn push_extents(pages: &mut Pages, k: u8, extents: &[Extent])
    requires segment { k < (table_of pages.old).segments }
    requires lie { ExtentsLie (table_of pages.old).reserved extents.now }
    requires classes { HaveClasses extents.now }
    ensures { table_of pages.new ≡ pushes k (in_extents extents.now) (table_of pages.old) }
{
    let mut done = 0;
    'runs: while done < extents.len() {
        let (to, run) = run_of(pages, extents, done);
        pages.push_words(k, run.place, run.words);
        done = to;
    }
}

/// Copies the shared words of spans into a segment's pages.
pub fn restore_spans(pages: &mut Pages, k: u8, spans: &[Span])
    requires segment { k < (table_of pages.old).segments }
    requires lie { SpansLie (table_of pages.old).reserved spans.now }
    ensures { table_of pages.new ≡ restores k (in_spans spans.now) (table_of pages.old) }
{
    'spans: for span in spans {
        pages.restore_words(k, span.place, span.words);
    }
}

/// The same of extents.
pub fn restore_extents(pages: &mut Pages, k: u8, extents: &[Extent])
    requires segment { k < (table_of pages.old).segments }
    requires lie { ExtentsLie (table_of pages.old).reserved extents.now }
    requires classes { HaveClasses extents.now }
    ensures { table_of pages.new ≡ restores k (in_extents extents.now) (table_of pages.old) }
{
    let mut done = 0;
    'runs: while done < extents.len() {
        let (to, run) = run_of(pages, extents, done);
        pages.restore_words(k, run.place, run.words);
        done = to;
    }
}

/// Gives extents back.
pub fn give_back_all(pages: &mut Pages, extents: &[Extent])
    requires lie { ExtentsLie (table_of pages.old).reserved extents.now }
    requires classes { HaveClasses extents.now }
    requires room { HaveRoom extents.now (table_of pages.old) }
    ensures { GivenBack extents.now (table_of pages.old) (table_of pages.new) }
{
    'extents: for extent in extents {
        pages.give_back(extent.place, extent.class);
    }
}

/// Writes back what notes tell of, the last note first.
pub fn write_back(pages: &mut Pages, k: u8, notes: &[Note])
    requires segment { k < (table_of pages.old).segments }
    requires lie { NotesLie k (table_of pages.old) notes.now }
    ensures { table_of pages.new ≡ with_words k (rewound notes.now ((table_of pages.old).word k)) (table_of pages.old) }
{
    let mut left = notes.len();
    'notes: while left > 0 {
        left -= 1;
        let note = notes[left];
        pages.write_word(k, note.place, note.word);
    }
}
