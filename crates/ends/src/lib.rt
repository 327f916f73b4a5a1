// What stands at the two ends of a text: its byte order mark, and the newline that closes it.
#![tactic(auto)]

ghost use Rattle.std.specs.Prelude.{◌≡◌};
ghost use Rattle.places.specs.Places.{mark_length, is_cut};

// Whether a text has bytes and does not end with a newline.
pub fn is_cut(text: &[u8]) -> bool
    ensures { result ≡ is_cut text.now }
{
    !text.is_empty() && !text.ends_with(b"\n")
}

// How many bytes of a text are its byte order mark.
pub fn mark_length(text: &[u8]) -> usize
    ensures { result ≡ mark_length text.now }
{
    if text.starts_with(b"\xEF\xBB\xBF") {
        3
    } else {
        0
    }
}
