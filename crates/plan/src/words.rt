// Little-endian 32-bit words: the words of bytes, one of them by its number, and all added.
ghost use Rattle.std.specs.Prelude.{◌≡◌, ◌+◌, ◌%◌, ◌^◌, ℕ, map, slice_index};
ghost use Rattle.std.specs.Int.{from_le_bytes, w32};
ghost use Rattle.laws.specs.Sums.{sum_of};
ghost use Rattle.meaning.specs.Plan.{words_of};

// A word: a number, or its four bytes.
pub trait Word {
    ghost value: { Self → ℕ };

    // The number.
    fn value(&self) -> u32
        ensures { result ≡ value self.now };
}

impl Word for u32 {
    ghost value = { λ n. n };

    fn value(&self) -> u32 {
        *self
    }
}

impl Word for [u8; 4] {
    ghost value = { from_le_bytes w32 };

    fn value(&self) -> u32 {
        u32::from_le_bytes(*self)
    }
}

// The words that lie wholly in the bytes.
pub(crate) fn words(bytes: &[u8]) -> &[[u8; 4]]
    ensures { map (from_le_bytes w32) result.now ≡ words_of bytes.now }
{
    bytes.as_chunks().0
}

// The number of the word at place i, or 0 where the bytes end before it, as the words of the definitions have it.
pub(crate) fn number(bytes: &[u8], i: usize) -> u32
    ensures { result ≡ slice_index (words_of bytes.now) i }
{
    words(bytes).get(i).map_or(0, Word::value)
}

// "wrapping add over all plan words": their sum modulo 2^32, added to a first number.
pub fn sum<W: Word>(first: u32, words: &[W]) -> u32
    ensures { result ≡ (first + sum_of W.value words.now) % 2 ^ 32 }
{
    words
        .iter()
        .fold(first, |sum: u32, word| sum.wrapping_add(word.value()))
}
