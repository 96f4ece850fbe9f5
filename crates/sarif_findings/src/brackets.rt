//! The first bracket of a string that is not in a pair.
ghost use Rattle.std.specs.Prelude.{◌≡◌, ◌<◌, ◌≤◌, List, drop, get_or, length, not, take, true, false, chars};
ghost use Rattle.std.specs.Bool.{OnTrue};
ghost use Rattle.std.specs.List.{list_all};
ghost use Rattle.std.specs.Str.{IsCharBoundary};
ghost use Rattle.serde_json.specs.Data.{Data};
ghost use Rattle.sarif_findings.specs.Internal.Brackets as said;
ghost use Rattle.sarif_findings.specs.Links.{ends_link};

/// How many bytes are checked together.
const TOGETHER: usize = 64;

/// Returns whether a byte is neither a bracket nor a backslash.
fn is_ordinary(byte: u8) -> bool
    ensures { result ≡ said.is_ordinary byte }
{
    !matches!(byte, b'[' | b']' | b'\\')
}

/// Returns whether each of these bytes is ordinary. It doesn't end early, so that many are compared at a time.
fn all_ordinary(bytes: &[u8]) -> bool
    ensures { result ≡ list_all said.is_ordinary bytes.now }
{
    let mut all = true;
    for byte in bytes {
        all &= is_ordinary(*byte);
    }
    all
}

/// Returns how many ordinary bytes these begin with, in steps of `TOGETHER`: up to `TOGETHER` more may follow.
fn ordinary_parts(bytes: &[u8]) -> usize
    ensures within { result ≤ length bytes.now }
    ensures ordinary { list_all said.is_ordinary (take result bytes.now) ≡ true }
{
    let mut end: usize = 0;
    while bytes.len() - end >= TOGETHER {
        if !all_ordinary(&bytes[end..end + TOGETHER]) {
            return end;
        }
        end += TOGETHER;
    }
    end
}

/// Returns how many ordinary bytes these begin with.
fn ordinary_bytes(bytes: &[u8]) -> usize
    ensures within { result ≤ length bytes.now }
    ensures ordinary { list_all said.is_ordinary (take result bytes.now) ≡ true }
    ensures stops { result < length bytes.now
        → said.is_ordinary (get_or bytes.now result 0) ≡ false }
{
    let mut end = ordinary_parts(bytes);
    while end < bytes.len() {
        if !is_ordinary(bytes[end]) {
            return end;
        }
        end += 1;
    }
    end
}

/// Returns the position of the first byte of a string, from this position on, that is not ordinary.
fn ordinary_end(text: &str, from: usize) -> usize
    requires { IsCharBoundary text.now from }
    ensures cut { IsCharBoundary text.now result }
    ensures later { from ≤ result }
    ensures goes { (args : List Data) → ends_link args false (chars (drop from text.now))
        ≡ ends_link args false (chars (drop result text.now)) }
    ensures stops { result < length text.now
        → said.is_ordinary (get_or text.now result 0) ≡ false }
{
    let bytes = text.as_bytes();
    let rest = &bytes[from..];
    from + ordinary_bytes(rest)
}

/// Returns whether there is a byte with that index that is not ordinary.
fn is_special_at(bytes: &[u8], index: usize) -> bool
    ensures there { OnTrue result (index < length bytes.now) }
    ensures said { said.is_ordinary (get_or bytes.now index 0) ≡ not result }
{
    if index < bytes.len() {
        return !is_ordinary(bytes[index]);
    }
    false
}

/// Returns where the text goes on after a backslash, or after the pair that it begins.
fn pair_end(text: &str, at: usize) -> usize
    requires within { at < length text.now }
    requires here { get_or text.now at 0 ≡ 92 }
    ensures cut { IsCharBoundary text.now result }
    ensures later { at < result }
    ensures goes { (args : List Data) → ends_link args false (chars (drop at text.now))
        ≡ ends_link args false (chars (drop result text.now)) }
{
    if is_special_at(text.as_bytes(), at + 1) {
        return at + 2;
    }
    at + 1
}

/// Returns where the first bracket is that is not in a pair, or the length of the text if there is none.
fn bracket_at(text: &str) -> usize
    ensures cut { IsCharBoundary text.now result }
    ensures closes { (args : List Data) → ends_link args false (chars text.now)
        ≡ said.closes_link args (chars (drop result text.now)) }
{
    let bytes = text.as_bytes();
    let mut at = ordinary_end(text, 0);
    while at < bytes.len() {
        if bytes[at] != b'\\' {
            return at;
        }
        at = ordinary_end(text, pair_end(text, at));
    }
    at
}

/// Returns the text from its first bracket on that is not in a pair.
pub(crate) fn from_bracket(text: &str) -> &str
    ensures { (args : List Data) → ends_link args false (chars text.now)
        ≡ said.closes_link args (chars result.now) }
{
    &text[bracket_at(text)..]
}
