// A test on a stretch of words.
ghost use Rattle.std.specs.Prelude.{◌≡◌, eqb};
ghost use Rattle.laws.specs.Tests.{every};

// All of these words are 0.
pub fn are_zero(words: &[u32]) -> bool
    ensures { result ≡ every (λ w. eqb w 0) words.now }
{
    words.iter().all(|word| *word == 0)
}
