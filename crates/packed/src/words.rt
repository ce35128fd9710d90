//! Words of 32 bits in bytes, the lowest byte first.
ghost use Rattle.std.specs.Prelude.{◌≡◌, ◌+◌, ◌*◌, ◌≤◌, ◌++◌, length, take, drop};
ghost use Rattle.std.specs.Int.{to_le_bytes, w32};
ghost use Rattle.packed.specs.Words.{word_at, count_word, begun_with};

/// The word whose first byte stands at `at`.
pub(crate) fn word_at(bytes: &[u8], at: usize) -> u32
    requires { at + 4 ≤ length bytes.now }
    ensures { result ≡ word_at bytes.now at }
{
    u32::from_le_bytes([bytes[at], bytes[at + 1], bytes[at + 2], bytes[at + 3]])
}

/// Writes a word whose first byte comes to stand at `at`.
pub(crate) fn put_word(out: &mut [u8], at: usize, word: u32)
    requires { at + 4 ≤ length out.old }
    ensures { out.new ≡ take at out.old ++ (to_le_bytes w32 word ++ drop (at + 4) out.old) }
{
    out[at..at + 4].copy_from_slice(&word.to_le_bytes());
}

/// Writes the words, one after the other.
pub(crate) fn put_words(out: &mut [u8], words: &[u32])
    requires { 4 * length words.now ≤ length out.old }
    ensures { out.new ≡ begun_with words.now out.old }
{
    for (k, word) in words.iter().enumerate() {
        put_word(out, 4 * k, *word);
    }
}

/// A count as a word, or the greatest word for any count above it.
pub(crate) fn count_word(count: usize) -> u32
    ensures { result ≡ count_word count }
{
    u32::try_from(count).unwrap_or(u32::MAX)
}
