//! The paths and methods that are answered.
ghost use Rattle.std.specs.Prelude.{◌≡◌};
ghost use Rattle.gw_page.specs.Answers.{is_read, place_of};

/// What a path names.
#[derive(Clone, Copy, PartialEq, Eq)]
pub enum Place {
    Page,
    Metrics,
    Health,
    Elsewhere,
}

/// What this path names.
pub(crate) fn place_of(path: &str) -> Place
    ensures { result ≡ place_of path.now }
{
    let path = path.as_bytes();
    if path == b"/".as_slice() {
        return Place::Page;
    }
    if path == b"/metrics".as_slice() {
        return Place::Metrics;
    }
    if path == b"/health".as_slice() {
        return Place::Health;
    }
    Place::Elsewhere
}

/// Whether this method asks for a text, and changes nothing (RFC 9110, section 9.2.1).
pub(crate) fn is_read(method: &str) -> bool
    ensures { result ≡ is_read method.now }
{
    let method = method.as_bytes();
    method == b"GET".as_slice() || method == b"HEAD".as_slice()
}
