// Patterns: read, and matched against handles, names and host names.
#![tactic(auto)]

ghost use Rattle.std.specs.Prelude.{◌≡◌};
ghost use Rattle.octets.specs.Ascii.{code};
ghost use Rattle.octets.specs.Lists.{every};
ghost use Rattle.octets.specs.Split.{split};
ghost use Rattle.texts.specs.Host.{is_label_byte};
ghost use Rattle.pattern.specs.Pattern.{is_host, longest, pattern_byte, is_pattern, is_suffix, form_of, pattern_of, matches, matches_read, folds_case};

use registry::{MOST_HOST, MOST_TEXT, Text};

// Where the asterisk of a pattern stands, if it has one.
#[derive(Clone, Copy)]
pub enum Form {
    Exact,
    Asterisk(usize),
}

// Why a text is no pattern: its asterisks are not supported, or its length or its bytes are no pattern's.
#[derive(Clone, Copy)]
pub enum PatternError {
    Unsupported,
    Malformed,
}

// Whether texts of this kind match with ASCII case folded.
pub fn folds_case(text: Text) -> bool
    ensures { result ≡ folds_case text }
{
    match text {
        Text::Handle => false,
        Text::Name | Text::Host => true,
    }
}

fn is_host(text: Text) -> bool
    ensures { result ≡ is_host text }
{
    matches!(text, Text::Host)
}

// The most bytes of a pattern.
fn longest_pattern(text: Text) -> usize
    ensures { result ≡ longest text }
{
    match text {
        Text::Handle | Text::Name => MOST_TEXT,
        Text::Host => MOST_HOST,
    }
}

// A letter, a digit or a hyphen.
#[tactic(auto, unfolding(texts::specs::Host::is_label_byte))]
fn is_label_byte(c: u8) -> bool
    ensures { result ≡ is_label_byte c }
{
    c.is_ascii_alphanumeric() || c == b'-'
}

// One of the field's characters, or an asterisk.
#[tactic(auto, unfolding(crate::specs::Pattern::pattern_byte))]
fn is_pattern_byte(text: Text, c: u8) -> bool
    ensures { result ≡ pattern_byte text c }
{
    match text {
        Text::Handle => 0x21 <= c && c <= 0x7E,
        Text::Name => 0x20 <= c && c <= 0x7E,
        Text::Host => is_label_byte(c) || c == b'.' || c == b'*',
    }
}

fn are_pattern_bytes(text: Text, s: &[u8]) -> bool
    ensures { result ≡ every (pattern_byte text) s.now }
{
    s.iter().all(|c| is_pattern_byte(text, *c))
}

// Whether s has the length and the characters of a pattern.
#[tactic(auto, unfolding(crate::specs::Pattern::is_pattern))]
pub fn is_pattern(text: Text, s: &[u8]) -> bool
    ensures { result ≡ is_pattern text s.now }
{
    !s.is_empty() && s.len() <= longest_pattern(text) && are_pattern_bytes(text, s)
}

// Whether q may follow the asterisk.
#[tactic(auto, unfolding(crate::specs::Pattern::is_suffix))]
fn is_suffix(host: bool, q: &[u8]) -> bool
    ensures { result ≡ is_suffix host q.now }
{
    match q {
        [] => true,
        [b'.', _, ..] => host,
        _ => false,
    }
}

// What the asterisks of s make of it; host says whether it is a pattern of host names.
fn pattern_form(host: bool, s: &[u8]) -> Result<Form, PatternError>
    ensures { result ≡ form_of host (split (code "*") s.now) }
{
    let j = pieces::first_piece(s, b'*');
    if j == s.len() {
        return Ok(Form::Exact);
    }
    let q = &s[j + 1..];
    let k = pieces::first_piece(q, b'*');
    if k == q.len() && is_suffix(host, q) {
        return Ok(Form::Asterisk(j));
    }
    Err(PatternError::Unsupported)
}

// Reads s as a pattern of texts of this kind.
#[tactic(auto, unfolding(crate::specs::Pattern::pattern_of))]
pub fn read_pattern(text: Text, s: &[u8]) -> Result<Form, PatternError>
    ensures { result ≡ pattern_of text s.now }
{
    if !is_pattern(text, s) {
        return Err(PatternError::Malformed);
    }
    pattern_form(is_host(text), s)
}

// Whether name is prefix, some bytes, and suffix; where there is a suffix, those bytes hold no dot.
#[tactic(auto, unfolding(crate::specs::Pattern::matches))]
pub fn pattern_matches(fold: bool, prefix: &[u8], suffix: &[u8], name: &[u8]) -> bool
    ensures { result ≡ matches fold prefix.now suffix.now name.now }
{
    let n = name.len();
    let p = prefix.len();
    let q = suffix.len();
    if n < p + q {
        return false;
    }
    folding::same(fold, prefix, &name[..p])
        && folding::same(fold, suffix, &name[n - q..])
        && (q == 0 || !pieces::has_byte(b'.', &name[p..n - q]))
}

// Whether a name matches what was read as a pattern; what was refused matches no name.
#[tactic(auto, unfolding(crate::specs::Pattern::matches_form))]
pub fn form_matches(
    fold: bool,
    form: Result<Form, PatternError>,
    pattern: &[u8],
    name: &[u8],
) -> bool
    ensures { result ≡ matches_read fold form pattern.now name.now }
{
    match form {
        Ok(Form::Exact) => folding::same(fold, pattern, name),
        Ok(Form::Asterisk(at)) => {
            at < pattern.len() && pattern_matches(fold, &pattern[..at], &pattern[at + 1..], name)
        }
        Err(_) => false,
    }
}
