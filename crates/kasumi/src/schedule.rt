// The key schedule of KASUMI: the keys of a round from the eight words of the key.
ghost use Rattle.std.specs.Prelude.{◌≡◌, ◌<◌, ◌≤◌};
ghost use Rattle.std.proofs.lemmas.List.Edits.{sets};
ghost use Rattle.kasumi.specs.Kasumi.{key_word, key_word', round_keys};
ghost use Rattle.kasumi.specs.Lent.{words_of, round_words, keys_at};

static CONSTANTS: [u16; 8] = [
    0x0123, 0x4567, 0x89AB, 0xCDEF, 0xFEDC, 0xBA98, 0x7654, 0x3210,
];

// The keys of one round.
#[derive(Clone, Copy)]
pub(crate) struct Keys {
    pub kl1: u16,
    pub kl2: u16,
    pub ko1: u16,
    pub ko2: u16,
    pub ko3: u16,
    pub ki1: u16,
    pub ki2: u16,
    pub ki3: u16,
}

// The word Kj of the key, j from 1; indices go round after 8.
fn word(key: &[u8; 16], j: usize) -> u16
    requires { 0 < j }
    ensures { result ≡ key_word key.now j }
{
    let at = (j - 1) % 8 * 2;
    u16::from_be_bytes([key[at], key[at + 1]])
}

// The word K'j: Kj xor its constant.
fn changed_word(key: &[u8; 16], j: usize) -> u16
    requires { 0 < j }
    ensures { result ≡ key_word' key.now j }
{
    word(key, j) ^ CONSTANTS[(j - 1) % 8]
}

// The keys of round i, i from 1 to 8.
pub(crate) fn keys_of_round(key: &[u8; 16], i: usize) -> Keys
    requires { (0 < i) × (i ≤ 8) }
    ensures { result ≡ round_keys key.now i }
{
    Keys {
        kl1: word(key, i).rotate_left(1),
        kl2: changed_word(key, i + 2),
        ko1: word(key, i + 1).rotate_left(5),
        ko2: word(key, i + 5).rotate_left(8),
        ko3: word(key, i + 6).rotate_left(13),
        ki1: changed_word(key, i + 4),
        ki2: changed_word(key, i + 3),
        ki3: changed_word(key, i + 7),
    }
}

// Puts the keys of one round to eight places from `at` on, word by word: with an array of the eight that is copied there, a key schedule takes half as
// many instructions again, and of places lent by `as_chunks_mut` nothing is known afterwards.
fn put_keys(keys: Keys, at: usize, words: &mut [u16; 64])
    requires { at ≤ 56 }
    ensures { words.new ≡ sets words.old at (words_of keys) }
{
    words[at] = keys.kl1;
    words[at + 1] = keys.kl2;
    words[at + 2] = keys.ko1;
    words[at + 3] = keys.ko2;
    words[at + 4] = keys.ko3;
    words[at + 5] = keys.ki1;
    words[at + 6] = keys.ki2;
    words[at + 7] = keys.ki3;
}

// The keys of all eight rounds, one round after the other.
pub(crate) fn keys_of_rounds(key: &[u8; 16]) -> [u16; 64]
    ensures { result ≡ round_words key.now 8 }
{
    let mut words = [0u16; 64];
    for i in 0..8 {
        put_keys(keys_of_round(key, i + 1), 8 * i, &mut words);
    }
    words
}

// The keys of round i among the words of all rounds.
pub(crate) fn keys_at(words: &[u16; 64], i: usize) -> Keys
    requires { (0 < i) × (i ≤ 8) }
    ensures { result ≡ keys_at words.now i }
{
    let (rounds, _) = words.as_chunks::<8>();
    let [kl1, kl2, ko1, ko2, ko3, ki1, ki2, ki3] = rounds[i - 1];
    Keys {
        kl1,
        kl2,
        ko1,
        ko2,
        ko3,
        ki1,
        ki2,
        ki3,
    }
}
