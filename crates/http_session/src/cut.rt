//! Bytes that are cut by a class.
ghost use Rattle.std.specs.Prelude.{◌≡◌, ◌≤◌, length, drop, take, true};
ghost use Rattle.std.specs.List.{list_all};
ghost use Rattle.http_session.specs.Cuts.{StartsOutside, Cut, is_of};

/// The classes of bytes that are cut off.
#[derive(Clone, Copy, Debug, PartialEq, Eq)]
pub(crate) enum Class {
    /// CR and LF.
    Line,
    /// All but CR, LF and the space.
    Plain,
    /// The space and the tab.
    Blank,
    /// All but the comma.
    Part,
}

/// The bytes of the class at the front, and the rest.
pub(crate) fn split_run(bytes: &[u8], class: Class) -> (&[u8], &[u8])
    ensures { Cut (is_of class) bytes.now result.0.now result.1.now }
{
    bytes.split_at(run_length(bytes, class))
}

/// How many bytes of the class stand at the front.
pub(crate) fn run_length(bytes: &[u8], class: Class) -> usize
    ensures within { result ≤ length bytes.now }
    ensures run { list_all (is_of class) (take result bytes.now) ≡ true }
    ensures stop { StartsOutside (is_of class) (drop result bytes.now) }
{
    for (i, byte) in bytes.iter().enumerate() {
        if !holds(class, *byte) {
            return i;
        }
    }
    bytes.len()
}

fn holds(class: Class, byte: u8) -> bool
    ensures { result ≡ is_of class byte }
{
    let is_line = byte == b'\r' || byte == b'\n';
    match class {
        Class::Line => is_line,
        Class::Plain => byte != b' ' && !is_line,
        Class::Blank => byte == b' ' || byte == b'\t',
        Class::Part => byte != b',',
    }
}
