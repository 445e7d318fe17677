//! The pieces of a text that one call takes.
ghost use Rattle.std.specs.Prelude.{◌≡◌, ◌≤◌, length, take};
ghost use Rattle.py_data.specs.World.{line_of};

/// The first `most` bytes, or all of a shorter text.
pub fn front(text: &[u8], most: usize) -> &[u8]
    ensures { result.now ≡ take most text.now }
{
    &text[..most.min(text.len())]
}

/// The longest front that has at most `most` bytes and no newline but as its last byte. It looks at no byte after it.
pub fn first_line(text: &[u8], most: usize) -> &[u8]
    ensures line { result.now ≡ line_of most text.now }
    ensures within { length result.now ≤ length text.now }
    ensures short { length result.now ≤ most }
{
    let window = front(text, most);
    match window.iter().position(|b| *b == b'\n') {
        Some(place) => &window[..=place],
        None => window,
    }
}
