//! The parts of a request's target.
ghost use Rattle.std.specs.Prelude.{◌≡◌, drop};
ghost use Rattle.std.specs.List.{position, position_or_len};
ghost use Rattle.std.specs.Option.{option_copied};
ghost use Rattle.http_front.specs.Target.{ends_authority, local_part, or_root};

/// The target without what names the server, where it begins with `/` or with `http://`.
pub fn local_part(target: &[u8]) -> Option<&[u8]>
    ensures { option_copied result ≡ local_part target.now }
{
    if target.starts_with(b"/") {
        return Some(target);
    }
    if target.starts_with(b"http://") {
        return Some(behind_authority(&target[7..]));
    }
    None
}

/// The rest from the first `/` or `?` on.
fn behind_authority(rest: &[u8]) -> &[u8]
    ensures { result.now ≡ drop (position_or_len ends_authority rest.now) rest.now }
{
    match authority_end(rest) {
        Some(offset) => &rest[offset..],
        None => &[],
    }
}

/// The offset of the first `/` or `?`.
fn authority_end(rest: &[u8]) -> Option<usize>
    ensures { result ≡ position ends_authority rest.now }
{
    rest.iter().position(|byte| *byte == b'/' || *byte == b'?')
}

/// The path `/` where there is none.
pub fn or_root(path: &[u8]) -> &[u8]
    ensures { result.now ≡ or_root path.now }
{
    if path.is_empty() { b"/" } else { path }
}
