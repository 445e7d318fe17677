//! The measures, by their names.
ghost use Rattle.std.specs.Prelude.{◌≡◌, ◌*◌, ◌≤◌, None};
ghost use Rattle.lock_run.specs.Space.{space_heap};

use crate::heap::{appends, changes};
use crate::index::probes;
use crate::objects::{Operation, done_over};
use lock_run::PlainView;
use py_data::{LENGTH_LIMIT, Stop};
use std::alloc::Global;
use stm_io::{SureSink, SureSource};

/// An empty heap, with devices that never fail. No thread is started over it.
fn plain(alloc: Global) -> PlainView<u8, SureSource, SureSink, SureSink>
    ensures live { result.stopped ≡ None }
    ensures heap { space_heap result.space ≡ (λ a. None) }
{
    PlainView::new(
        alloc,
        SureSource::new(alloc, Vec::new(alloc)),
        SureSink::new(alloc),
        SureSink::new(alloc),
    )
}

/// Does an operation over so many values or bytes.
fn operated(alloc: Global, operation: Operation, count: u32) -> Result<i64, Stop> {
    done_over(alloc, plain(alloc), operation, count)
}

/// Does the measure of that name so many times, over a heap of its own. It answers None where no measure has the name.
pub fn measured(alloc: Global, name: &str, count: u32) -> Option<Result<i64, Stop>>
    requires { 2 * count ≤ LENGTH_LIMIT }
{
    match name {
        "appends" => Some(appends(alloc, &mut plain(alloc), count)),
        "changes" => Some(changes(alloc, &mut plain(alloc), count)),
        "list_sums" => Some(operated(alloc, Operation::ListSum, count)),
        "text_sums" => Some(operated(alloc, Operation::TextSum, count)),
        "joins" => Some(operated(alloc, Operation::Join, count)),
        "texts" => Some(operated(alloc, Operation::Text, count)),
        "searches" => Some(operated(alloc, Operation::Search, count)),
        kind => Some(probes(alloc, kind, count)?.map_err(|_| Stop::OutOfMemory)),
    }
}
