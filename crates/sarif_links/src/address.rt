//! The addresses that reports link to.
ghost use Rattle.std.specs.Prelude.{◌≡◌, true, false};
ghost use Rattle.sarif_links.specs.Address as said;

/// The maximum number of characters of an address.
pub const MOST_OF_ADDRESS: usize = 1000;

/// Whether a host may have this character: a letter, a digit, or one of `.:_-`.
pub(crate) fn is_host_sign(byte: u8) -> bool
    ensures { result ≡ said.is_host_sign byte }
{
    matches!(byte, b'A'..=b'Z' | b'a'..=b'z' | b'0'..=b'9' | b'.' | b':' | b'_' | b'-')
}

/// Whether this may come next after a host.
fn ends_host(byte: u8) -> bool
    ensures { result ≡ said.ends_host byte }
{
    matches!(byte, b'/' | b'?' | b'#')
}

/// Whether an address may have this character only after its host.
fn is_later_sign(byte: u8) -> bool
    ensures { result ≡ said.is_later_sign byte }
{
    matches!(
        byte,
        b'~' | b'@' | b'!' | b'&' | b'(' | b')' | b'*' | b'+' | b',' | b';' | b'=' | b'%'
    )
}

/// Whether an address may have this character after its host.
pub(crate) fn is_address_sign(byte: u8) -> bool
    ensures { result ≡ said.is_address_sign byte }
{
    is_host_sign(byte) || ends_host(byte) || is_later_sign(byte)
}

/// Whether an address may go on with this: in its host, or after it.
fn may_go_on(in_host: bool, byte: u8) -> bool
    ensures { result ≡ said.may_go_on in_host byte }
{
    is_host_sign(byte) || ends_host(byte) || (!in_host && is_later_sign(byte))
}

/// Whether an address may go on with these in its host.
fn goes_on(bytes: &[u8]) -> bool
    ensures { result ≡ said.goes_on true bytes.now }
{
    let mut in_host = true;
    for byte in bytes {
        if !may_go_on(in_host, *byte) {
            return false;
        }
        in_host = in_host && is_host_sign(*byte);
    }
    true
}

/// Whether these begin with a host, and an address may go on with what follows it.
pub(crate) fn begins_with_host(bytes: &[u8]) -> bool
    ensures { result ≡ said.begins_with_host bytes.now }
{
    match bytes {
        [] => false,
        [first, rest @ ..] => is_host_sign(*first) && goes_on(rest),
    }
}

/// What follows `https://` or `http://`; nothing if there is neither.
pub(crate) fn after_scheme(text: &str) -> &[u8]
    ensures { result.now ≡ said.after_scheme text.now }
{
    if text.starts_with("https://") {
        &text.as_bytes()[8..]
    } else if text.starts_with("http://") {
        &text.as_bytes()[7..]
    } else {
        &[]
    }
}

/// Whether two `#` are adjacent.
pub(crate) fn has_two_signs(bytes: &[u8]) -> bool
    ensures { result ≡ said.has_two_signs false bytes.now }
{
    let mut after_hash = false;
    for byte in bytes {
        if after_hash && *byte == b'#' {
            return true;
        }
        after_hash = *byte == b'#';
    }
    false
}

/// Returns whether reports may link to this string.
pub fn is_address(text: &str) -> bool
    ensures { result ≡ said.is_address text.now }
{
    text.len() <= MOST_OF_ADDRESS
        && begins_with_host(after_scheme(text))
        && !has_two_signs(text.as_bytes())
}
