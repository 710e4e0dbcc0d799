// The compression of blocks of 64 bytes.
ghost use Rattle.std.specs.Prelude.{◌≡◌, ◌+◌, ◌%◌, ◌<◌, ◌++◌, take, slice_index, slice_set};
ghost use Rattle.digest.specs.Running.{hash_of};
ghost use Rattle.digest.specs.Sha256.{absorbed, added, compressed, constants, digest as snapshot_digest, extended, round as round_of, rounds as rounds_of, scheduled, words as words_of};

use std::array;

// The constants K_0 to K_63, sixteen for each turn.
static K: [[u32; 16]; 4] = [
    [
        0x428a2f98, 0x71374491, 0xb5c0fbcf, 0xe9b5dba5, 0x3956c25b, 0x59f111f1, 0x923f82a4,
        0xab1c5ed5, 0xd807aa98, 0x12835b01, 0x243185be, 0x550c7dc3, 0x72be5d74, 0x80deb1fe,
        0x9bdc06a7, 0xc19bf174,
    ],
    [
        0xe49b69c1, 0xefbe4786, 0x0fc19dc6, 0x240ca1cc, 0x2de92c6f, 0x4a7484aa, 0x5cb0a9dc,
        0x76f988da, 0x983e5152, 0xa831c66d, 0xb00327c8, 0xbf597fc7, 0xc6e00bf3, 0xd5a79147,
        0x06ca6351, 0x14292967,
    ],
    [
        0x27b70a85, 0x2e1b2138, 0x4d2c6dfc, 0x53380d13, 0x650a7354, 0x766a0abb, 0x81c2c92e,
        0x92722c85, 0xa2bfe8a1, 0xa81a664b, 0xc24b8b70, 0xc76c51a3, 0xd192e819, 0xd6990624,
        0xf40e3585, 0x106aa070,
    ],
    [
        0x19a4c116, 0x1e376c08, 0x2748774c, 0x34b0bcb5, 0x391c0cb3, 0x4ed8aa4a, 0x5b9cca4f,
        0x682e6ff3, 0x748f82ee, 0x78a5636f, 0x84c87814, 0x8cc70208, 0x90befffa, 0xa4506ceb,
        0xbef9a3f7, 0xc67178f2,
    ],
];

// A hash value, or the eight working variables of a block's rounds.
#[derive(Clone, Copy)]
pub struct State {
    a: u32,
    b: u32,
    c: u32,
    d: u32,
    e: u32,
    f: u32,
    g: u32,
    h: u32,
}

impl State {
    // The initial hash value.
    pub const INITIAL: State = State {
        a: 0x6a09e667,
        b: 0xbb67ae85,
        c: 0x3c6ef372,
        d: 0xa54ff53a,
        e: 0x510e527f,
        f: 0x9b05688c,
        g: 0x1f83d9ab,
        h: 0x5be0cd19,
    };

    // One round, with a constant and a word of the schedule.
    fn round(self, k: u32, w: u32) -> State
        ensures { hash_of result ≡ round_of (hash_of self) k w }
    {
        let s1 = self.e.rotate_right(6) ^ self.e.rotate_right(11) ^ self.e.rotate_right(25);
        let ch = (self.e & self.f) ^ (!self.e & self.g);
        let t1 = self
            .h
            .wrapping_add(s1)
            .wrapping_add(ch)
            .wrapping_add(k)
            .wrapping_add(w);
        let s0 = self.a.rotate_right(2) ^ self.a.rotate_right(13) ^ self.a.rotate_right(22);
        let maj = (self.a & self.b) ^ (self.a & self.c) ^ (self.b & self.c);
        let t2 = s0.wrapping_add(maj);
        State {
            a: t1.wrapping_add(t2),
            b: self.a,
            c: self.b,
            d: self.c,
            e: self.d.wrapping_add(t1),
            f: self.e,
            g: self.f,
            h: self.g,
        }
    }

    // The sums of the words.
    fn plus(self, other: State) -> State
        ensures { hash_of result ≡ added (hash_of self) (hash_of other) }
    {
        State {
            a: self.a.wrapping_add(other.a),
            b: self.b.wrapping_add(other.b),
            c: self.c.wrapping_add(other.c),
            d: self.d.wrapping_add(other.d),
            e: self.e.wrapping_add(other.e),
            f: self.f.wrapping_add(other.f),
            g: self.g.wrapping_add(other.g),
            h: self.h.wrapping_add(other.h),
        }
    }

    // The hash value as bytes.
    pub fn to_bytes(self) -> [u8; 32]
        ensures { result ≡ snapshot_digest (hash_of self) }
    {
        let words = [
            self.a, self.b, self.c, self.d, self.e, self.f, self.g, self.h,
        ];
        let mut bytes = [0; 32];
        bytes.copy_from_slice(words.map(u32::to_be_bytes).as_flattened());
        bytes
    }
}

// A word of the schedule, from those 2, 7, 15 and 16 places before.
fn word(w2: u32, w7: u32, w15: u32, w16: u32) -> u32
    ensures { result ≡ scheduled w2 w7 w15 w16 }
{
    let s1 = w2.rotate_right(17) ^ w2.rotate_right(19) ^ (w2 >> 10);
    let s0 = w15.rotate_right(7) ^ w15.rotate_right(18) ^ (w15 >> 3);
    s1.wrapping_add(w7).wrapping_add(s0).wrapping_add(w16)
}

// The sixteen words of a block.
fn load(block: &[u8; 64]) -> [u32; 16]
    ensures { result ≡ words_of 16 block.now }
{
    let (words, _) = block.as_chunks::<4>();
    array::from_fn(|i| u32::from_be_bytes(words[i]))
}

// The first sixteen rounds, with a block's own words.
fn first(s: State, words: &[u32; 16]) -> State
    ensures { hash_of result ≡ rounds_of (hash_of s) (take 16 constants) words.now }
{
    let mut s = s;
    for (k, word) in K[0].iter().zip(words) {
        s = s.round(*k, *word);
    }
    s
}

// A round with the next word of the schedule, which goes in the place of the oldest of the sixteen before it.
fn step(s: State, k: u32, words: &mut [u32; 16], i: usize) -> State
    requires { i < 16 }
    ensures next { words.new ≡ slice_set words.old i (scheduled (slice_index words.old ((i + 14) % 16)) (slice_index words.old ((i + 9) % 16)) (slice_index words.old ((i + 1) % 16)) (slice_index words.old i)) }
    ensures round { hash_of result ≡ round_of (hash_of s) k (slice_index words.new i) }
{
    words[i] = word(
        words[(i + 14) % 16],
        words[(i + 9) % 16],
        words[(i + 1) % 16],
        words[i],
    );
    s.round(k, words[i])
}

// Sixteen rounds, each with a word more of the schedule. Written out for speed: a loop over the sixteen takes 1.2 times as long.
fn turn(s: State, k: &[u32; 16], words: &mut [u32; 16]) -> State
    ensures next { extended 16 words.old ≡ words.old ++ words.new }
    ensures rounds { hash_of result ≡ rounds_of (hash_of s) k.now words.new }
{
    let s = step(s, k[0], words, 0);
    let s = step(s, k[1], words, 1);
    let s = step(s, k[2], words, 2);
    let s = step(s, k[3], words, 3);
    let s = step(s, k[4], words, 4);
    let s = step(s, k[5], words, 5);
    let s = step(s, k[6], words, 6);
    let s = step(s, k[7], words, 7);
    let s = step(s, k[8], words, 8);
    let s = step(s, k[9], words, 9);
    let s = step(s, k[10], words, 10);
    let s = step(s, k[11], words, 11);
    let s = step(s, k[12], words, 12);
    let s = step(s, k[13], words, 13);
    let s = step(s, k[14], words, 14);
    step(s, k[15], words, 15)
}

// The hash value after a block more.
fn compress(s: State, block: &[u8; 64]) -> State
    ensures { hash_of result ≡ compressed (hash_of s) block.now }
{
    let mut words = load(block);
    let mut t = first(s, &words);
    for k in &K[1..] {
        t = turn(t, k, &mut words);
    }
    s.plus(t)
}

// The hash value after these blocks. The only caller of `compress`, which is inlined here therefore.
pub fn absorb(s: State, blocks: &[[u8; 64]]) -> State
    ensures { hash_of result ≡ absorbed (hash_of s) blocks.now }
{
    let mut s = s;
    for block in blocks {
        s = compress(s, block);
    }
    s
}
