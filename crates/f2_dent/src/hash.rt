// The hash of a name.
ghost use Rattle.std.specs.Prelude.{◌≡◌, ◌<◌};
ghost use Rattle.f2_bytes.specs.Names.{is_dots, hash_pad, hash_word, hash_words, tea_half, tea};
ghost use Rattle.f2_bytes.specs.Names.{name_hash as hash_of};

// Whether the name is `.` or `..`.
fn is_dots(name: &[u8]) -> bool
    ensures { result ≡ is_dots name.now }
{
    name == b".".as_slice() || name == b"..".as_slice()
}

// What fills up a piece where `left` bytes of the name are left.
fn pad(left: usize) -> u32
    ensures { result ≡ hash_pad left }
{
    let p = (left % 0x1_0000_0000) as u32;
    p.wrapping_mul(0x0101_0101)
}

// Word `j` of a piece: its bytes pushed into the pad.
fn word(pad: u32, piece: &[u8], j: usize) -> u32
    requires { j < 4 }
    ensures { result ≡ hash_word pad piece.now j }
{
    piece.iter().skip(4 * j).take(4).fold(
        pad,
        |w, c| w.wrapping_mul(256).wrapping_add(u32::from(*c)),
    )
}

// The four words of a piece, the first of `left` bytes that are left.
fn words(left: usize, piece: &[u8]) -> [u32; 4]
    ensures { result ≡ hash_words left piece.now }
{
    let pad = pad(left);
    [
        word(pad, piece, 0),
        word(pad, piece, 1),
        word(pad, piece, 2),
        word(pad, piece, 3),
    ]
}

// Half a round of the cipher TEA.
fn half(x: u32, y: u32, s: u32, a: u32, b: u32) -> u32
    ensures { result ≡ tea_half x y s a b }
{
    let mixed = y.wrapping_mul(16).wrapping_add(a) ^ y.wrapping_add(s) ^ (y / 32).wrapping_add(b);
    x.wrapping_add(mixed)
}

// The sixteen rounds of the cipher.
fn mix(words: [u32; 4], mut x: u32, mut y: u32) -> (u32, u32)
    ensures { result ≡ tea 16 words 0 x y }
{
    let mut s = 0u32;
    for _ in 0..16u8 {
        s = s.wrapping_add(0x9E37_79B9);
        x = half(x, y, s, words[0], words[1]);
        y = half(y, x, s, words[2], words[3]);
    }
    (x, y)
}

/// The hash of a name, by which its bucket is found: that of `.` and `..` is 0, any other is made with the cipher TEA. It
/// takes no memory.
pub fn name_hash(name: &[u8]) -> u32
    ensures { result ≡ hash_of name.now }
{
    if is_dots(name) {
        return 0;
    }
    let (mut p, mut q) = (0x6745_2301u32, 0xEFCD_AB89u32);
    let mut rest = name;
    while !rest.is_empty() {
        let (piece, behind) = rest.split_at(rest.len().min(16));
        let (x, y) = mix(words(rest.len(), piece), p, q);
        p = p.wrapping_add(x);
        q = q.wrapping_add(y);
        rest = behind;
    }
    p
}
