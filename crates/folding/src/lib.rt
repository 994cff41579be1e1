// Texts folded, and compared with and without folding.
#![tactic(auto)]

ghost use Rattle.std.specs.Prelude.{◌≡◌, false, map, ◌≤◌, eqb, length, take};
ghost use Rattle.texts.specs.Host.{fold, without_final_dot};
ghost use Rattle.texts.specs.Compare.{fold_if, alike};

// A capital as the small letter.
pub fn folded(c: u8) -> u8
    ensures { result ≡ fold c }
{
    c.to_ascii_lowercase()
}

// Folds s where it stands.
pub fn fold_in(s: &mut [u8])
    ensures { s.new ≡ map fold s.old }
{
    for c in s.iter_mut() {
        *c = folded(*c);
    }
}

// One final dot dropped.
pub fn without_final_dot(s: &[u8]) -> &[u8]
    ensures { result.now ≡ without_final_dot s.now }
{
    s.strip_suffix(b".").unwrap_or(s)
}

// Whether two bytes are the same, after folding where fold says so. Few pairs need to be folded.
fn same_byte(fold: bool, c: u8, d: u8) -> bool
    ensures { result ≡ eqb (fold_if fold c) (fold_if fold d) }
{
    c == d || (fold && folded(c) == folded(d))
}

// How many bytes at the start of both are the same, in eights: long names are compared so in fewer steps.
fn same_eights(a: &[u8], b: &[u8]) -> usize
    requires { length a.now ≡ length b.now }
    ensures { (result ≤ length a.now) × (take result a.now ≡ take result b.now) }
{
    let n = a.len();
    let mut i: usize = 0;
    while 8 <= n - i {
        if words::word8(a, i) != words::word8(b, i) {
            return i;
        }
        i += 8;
    }
    i
}

// Whether a and b are the same bytes, after folding where fold says so. Most texts that differ do so in length, in the last byte
// or in one of the first.
pub fn same(fold: bool, a: &[u8], b: &[u8]) -> bool
    ensures { result ≡ alike fold a.now b.now }
{
    let n = a.len();
    if n != b.len() {
        return false;
    }
    if n == 0 {
        return true;
    }
    if !same_byte(fold, a[n - 1], b[n - 1]) {
        return false;
    }
    for i in same_eights(a, b)..n {
        if !same_byte(fold, a[i], b[i]) {
            return false;
        }
    }
    true
}

// Whether a and b are the same bytes.
pub fn equal(a: &[u8], b: &[u8]) -> bool
    ensures { result ≡ alike false a.now b.now }
{
    a == b
}
