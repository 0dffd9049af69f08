// The hash of words.
ghost use Rattle.std.specs.Prelude.{◌≡◌, ◌+◌, ◌≤◌, length};
ghost use Rattle.samples.specs.Hash.{times_prime, with_word, with_words};

// What the hash is of no words.
pub const START: u32 = 2166136261;

// A step's product, modulo 2^32.
fn times_prime(x: u32) -> u32
    ensures { result ≡ times_prime x }
{
    (x as u64 * 16777619 % 4294967296) as u32
}

// The hash with one word more.
#[tactic(auto, unfolding(crate::specs::Hash::with_word))]
pub fn with_word(h: u32, word: u32) -> u32
    ensures { result ≡ with_word h word }
{
    times_prime(h ^ word)
}

// The hash with n words more, those from `at` on.
#[tactic(auto, unfolding(crate::specs::Hash::with_words))]
pub fn with_words(h: u32, words: &[u32], at: usize, n: usize) -> u32
    requires { at + n ≤ length words.now }
    ensures { result ≡ with_words h words.now at n }
{
    let mut g = h;
    for i in 0..n {
        g = with_word(g, words[at + i]);
    }
    g
}
