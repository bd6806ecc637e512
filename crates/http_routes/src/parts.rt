//! The path of a target.

ghost use Rattle.std.specs.Prelude.{◌≡◌, ◌==◌, position};
ghost use Rattle.std.specs.List.{before_first};
ghost use Rattle.http_routes.specs.Parts.{path_of};

// The place of the first byte of this value.
fn place_of(bytes: &[u8], mark: u8) -> Option<usize>
    ensures { result ≡ position (λ b. b == mark) bytes.now }
{
    bytes.iter().position(|byte| *byte == mark)
}

// What stands before the first byte of this value, or all where there is none.
fn before(bytes: &[u8], mark: u8) -> &[u8]
    ensures { result.now ≡ before_first (λ b. b == mark) bytes.now }
{
    match place_of(bytes, mark) {
        Some(end) => &bytes[..end],
        None => bytes,
    }
}

/// The path of a request's target: all of it up to its first `?`.
/// Nothing of it is decoded.
/// This is this project's own rule.
pub fn path(target: &[u8]) -> &[u8]
    ensures { result.now ≡ path_of target.now }
{
    before(target, b'?')
}
