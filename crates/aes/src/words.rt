// Words of four octets, the first highest.
ghost use Rattle.std.specs.Prelude.{◌≡◌, ◌<◌};
ghost use Rattle.aes.specs.Aes.{octet_of, key_word};

// Octet r of a word.
pub(crate) fn octet(w: u32, r: usize) -> u8
    requires { r < 4 }
    ensures { result ≡ octet_of w r }
{
    w.to_be_bytes()[r]
}

// Word i of a key or of a block.
pub(crate) fn word_at(octets: &[u8; 16], i: usize) -> u32
    requires { i < 4 }
    ensures { result ≡ key_word octets.now i }
{
    let at = 4 * i;
    u32::from_be_bytes([octets[at], octets[at + 1], octets[at + 2], octets[at + 3]])
}
