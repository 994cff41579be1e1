// A text in a fixed number of bytes.

ghost use Rattle.std.specs.Prelude.{◌≡◌, ◌≤◌, length, map, take};
ghost use Rattle.registry.specs.Limits.{most_host};
ghost use Rattle.texts.specs.Host.{fold};

use registry::MOST_HOST;

// A handle, a name, a host name or a pattern: the first len of these bytes.
#[derive(Clone, Copy)]
pub struct ShortText {
    pub bytes: [u8; MOST_HOST],
    pub len: usize,
    pub ghost fits: { len ≤ most_host },
}

impl ShortText {
    pub fn new(s: &[u8]) -> ShortText
        requires { length s.now ≤ most_host }
        ensures { take result.len result.bytes ≡ s.now }
    {
        let mut bytes = [0u8; MOST_HOST];
        bytes[..s.len()].copy_from_slice(s);
        ShortText {
            bytes,
            len: s.len(),
        }
    }

    // Capitals as small letters.
    pub fn folded(self) -> ShortText
        ensures { take result.len result.bytes ≡ map fold (take self.len self.bytes) }
    {
        let mut bytes = self.bytes;
        folding::fold_in(&mut bytes[..self.len]);
        ShortText {
            bytes,
            len: self.len,
        }
    }

    pub fn as_slice(&self) -> &[u8]
        ensures { result.now ≡ take self.now.len self.now.bytes }
    {
        &self.bytes[..self.len]
    }
}
