//! The four words that SipHash works on.

ghost use Rattle.std.specs.Prelude.{◌≡◌, ◌+◌, ◌≤◌, length, take, drop};
ghost use Rattle.merkle_digest.specs.SipHash.{word, start, round, absorb_word, four_rounds, folded, output};

/// The state of SipHash-2-4 with 128 bits of output, between words of the message.
#[derive(Clone, Copy, Debug)]
pub struct SipState {
    v0: u64,
    v1: u64,
    v2: u64,
    v3: u64,
}

impl SipState {
    /// The state before the first word.
    pub fn start(key: &[u8; 16]) -> Self
        ensures { result ≡ start key.now }
    {
        let k0 = read_word(key, 0);
        let k1 = read_word(key, 8);
        SipState {
            v0: k0 ^ 0x736f_6d65_7073_6575,
            v1: k1 ^ 0x646f_7261_6e64_6f6d ^ 0xee,
            v2: k0 ^ 0x6c79_6765_6e65_7261,
            v3: k1 ^ 0x7465_6462_7974_6573,
        }
    }

    fn round(&mut self)
        ensures { self.new ≡ round self.old }
    {
        self.v0 = self.v0.wrapping_add(self.v1);
        self.v1 = self.v1.rotate_left(13) ^ self.v0;
        self.v0 = self.v0.rotate_left(32);
        self.v2 = self.v2.wrapping_add(self.v3);
        self.v3 = self.v3.rotate_left(16) ^ self.v2;
        self.v0 = self.v0.wrapping_add(self.v3);
        self.v3 = self.v3.rotate_left(21) ^ self.v0;
        self.v2 = self.v2.wrapping_add(self.v1);
        self.v1 = self.v1.rotate_left(17) ^ self.v2;
        self.v2 = self.v2.rotate_left(32);
    }

    /// Takes in one word of the message.
    pub fn absorb_word(&mut self, m: u64)
        ensures { self.new ≡ absorb_word self.old m }
    {
        self.v3 ^= m;
        self.round();
        self.round();
        self.v0 ^= m;
    }

    fn four_rounds(&mut self)
        ensures { self.new ≡ four_rounds self.old }
    {
        self.round();
        self.round();
        self.round();
        self.round();
    }

    fn folded(&self) -> u64
        ensures { result ≡ folded self.now }
    {
        self.v0 ^ self.v1 ^ self.v2 ^ self.v3
    }

    /// The output, once the last word is taken in.
    #[inline(always)]
    pub fn output(mut self) -> [u8; 16]
        ensures { result ≡ output self }
    {
        self.v2 ^= 0xee;
        self.four_rounds();
        let first = self.folded().to_le_bytes();
        self.v1 ^= 0xdd;
        self.four_rounds();
        let second = self.folded().to_le_bytes();
        let mut output = [0; 16];
        output[..8].copy_from_slice(&first);
        output[8..].copy_from_slice(&second);
        output
    }
}

/// The word of the eight bytes from `at` on, the lowest first.
pub fn read_word(bytes: &[u8], at: usize) -> u64
    requires { at + 8 ≤ length bytes.now }
    ensures { result ≡ word (take 8 (drop at bytes.now)) }
{
    u64::from_le_bytes([
        bytes[at],
        bytes[at + 1],
        bytes[at + 2],
        bytes[at + 3],
        bytes[at + 4],
        bytes[at + 5],
        bytes[at + 6],
        bytes[at + 7],
    ])
}
