ghost use Rattle.std.specs.Prelude.{◌≡◌, ℕ, ◌-◌, ◌<◌, ◌≤◌, List, [], ◌∷◌, length, take, drop};
ghost use Rattle.std.specs.List.{prefix_len, position_or_len};
ghost use Rattle.text_spec.specs.Tokens.{is_separator, mark_length, runs, tokens_of};

/// The tokens of a file, each with its position in bytes from the file's start. Tokens are the maximal runs of bytes
/// that are no space, tab, carriage return, line feed, comma or semicolon. A byte order mark at the start belongs to no
/// token.
#[derive(Drop)]
pub struct Tokens<'a> {
    bytes: &'a [u8],
    place: usize,
    ghost within: { place ≤ length bytes.now },
}

impl<'a> Tokens<'a> {
    ghost use Rattle.dec_text.specs.Views.{tokens_left};

    /// The tokens of a whole file.
    #[tactic(auto, unfolding(text_spec::specs::Tokens::tokens_of))]
    pub fn over(bytes: &'a [u8]) -> Self
        ensures { tokens_left result ≡ tokens_of bytes.now }
    {
        let place = mark_len(bytes);
        Tokens { bytes, place }
    }
}

impl<'a> Iterator for Tokens<'a> {
    ghost use Rattle.std.specs.Iterator.{YieldsFirstBy, item_count};
    ghost use Rattle.dec_text.specs.Views.{tokens_left};

    type Item = (usize, &'a [u8]);

    ghost next_gives = { YieldsFirstBy (λ t. (t.0, t.1.now)) tokens_left };

    ghost remaining = { item_count tokens_left };

    fn next(&mut self) -> Option<(usize, &'a [u8])> {
        let (start, end) = token_at(self.bytes, self.place);
        self.place = end;
        if start == end {
            return None;
        }
        Some((start, &self.bytes[start..end]))
    }
}

// The bounds of the first token from a place on, or twice the end where there is none.
fn token_at(bytes: &[u8], place: usize) -> (usize, usize)
    requires { place ≤ length bytes.now }
    ensures order { result.0 ≤ result.1 }
    ensures within { result.1 ≤ length bytes.now }
    ensures none { result.0 ≡ result.1 → runs place (drop place bytes.now) ≡ [] × runs result.1 (drop result.1 bytes.now) ≡ [] }
    ensures some { result.0 < result.1 → runs place (drop place bytes.now) ≡ (result.0, take (result.1 - result.0) (drop result.0 bytes.now)) ∷ runs result.1 (drop result.1 bytes.now) }
{
    let (_, rest) = bytes.split_at(place);
    let start = place + separators(rest);
    let (_, token) = bytes.split_at(start);
    (start, start + token_len(token))
}

// How many bytes a byte order mark takes that the file begins with.
fn mark_len(bytes: &[u8]) -> usize
    ensures fits { result ≤ length bytes.now }
    ensures value { result ≡ mark_length bytes.now }
{
    if bytes.starts_with(b"\xef\xbb\xbf") {
        3
    } else {
        0
    }
}

// How many separators the bytes begin with.
fn separators(bytes: &[u8]) -> usize
    ensures fits { result ≤ length bytes.now }
    ensures value { result ≡ prefix_len is_separator bytes.now }
{
    for (i, byte) in bytes.iter().enumerate() {
        if !separates(*byte) {
            return i;
        }
    }
    bytes.len()
}

// How many bytes come before the first separator.
fn token_len(bytes: &[u8]) -> usize
    ensures fits { result ≤ length bytes.now }
    ensures value { result ≡ position_or_len is_separator bytes.now }
{
    for (i, byte) in bytes.iter().enumerate() {
        if separates(*byte) {
            return i;
        }
    }
    bytes.len()
}

#[tactic(auto, unfolding(text_spec::specs::Tokens::is_separator))]
fn separates(byte: u8) -> bool
    ensures { result ≡ is_separator byte }
{
    matches!(byte, b' ' | b'\t' | b'\r' | b'\n' | b',' | b';')
}
