// The replayed slice pool as a whole: the hash of its words.
ghost use Rattle.std.specs.Prelude.{◌≡◌, length};
ghost use Rattle.samples.specs.Hash.{with_words};

pub fn hash(words: &[u32]) -> u32
    ensures { result ≡ with_words 2166136261 words.now 0 (length words.now) }
{
    samples::hash::with_words(samples::hash::START, words, 0, words.len())
}
