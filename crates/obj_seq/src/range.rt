//! Ranges of whole numbers.
ghost use Rattle.std.specs.Prelude.{◌≡◌, ◌≢◌, ◌<◌, ◌≤◌, ◌-ℤ◌, pos};
ghost use Rattle.py_data.specs.Range.{steps, range_length, range_item};

/// How many numbers, `step` apart from one another and from `from` on, are below `to`.
fn steps(from: i64, to: i64, step: u64) -> u64
    requires { step ≢ 0 }
    ensures { result ≡ steps (to -ℤ from) step }
{
    if from < to {
        (to.abs_diff(from) - 1) / step + 1
    } else {
        0
    }
}

/// How many items the range from `start` to `stop` has.
pub fn range_length(start: i64, stop: i64, step: i64) -> u64
    requires { step ≢ pos 0 }
    ensures { result ≡ range_length start stop step }
{
    if step > 0 {
        steps(start, stop, step.unsigned_abs())
    } else {
        steps(stop, start, step.unsigned_abs())
    }
}

/// The item at place `k` of the range from `start` to `stop`.
pub fn range_item(start: i64, stop: i64, step: i64, k: u64) -> i64
    requires some { step ≢ pos 0 }
    requires within { k < range_length start stop step }
    ensures { result ≡ range_item start step k }
{
    (start as i128 + k as i128 * step as i128) as i64
}
