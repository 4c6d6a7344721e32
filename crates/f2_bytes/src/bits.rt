// Maps of bits in bytes.
ghost use Rattle.std.specs.Prelude.{◌≡◌, ◌≢◌, ℕ, ◌*◌, ◌^◌, ◌<◌, length};
ghost use Rattle.f2_bytes.specs.Bytes.{has_bit, count_below};
ghost use Rattle.f2_bytes.specs.Bits.{bit_msb, bit_lsb, ChangesBit};

/// Bit `k` of the map, each byte's most significant bit first: the order of valid maps and version bitmaps.
pub fn bit_msb(map: &[u8], k: usize) -> bool
    requires { k < 8 * length map.now }
    ensures { result ≡ bit_msb map.now k }
{
    (map[k / 8] >> (7 - k % 8)) % 2 == 1
}

/// Bit `k` of the map, each byte's least significant bit first: the order of a directory's bitmap.
pub fn bit_lsb(map: &[u8], k: usize) -> bool
    requires { k < 8 * length map.now }
    ensures { result ≡ bit_lsb map.now k }
{
    (map[k / 8] >> (k % 8)) % 2 == 1
}

// The byte with its bit of the weight 2 to the `place` as given.
fn with_bit(byte: u8, place: usize, on: bool) -> u8
    requires { place < 8 }
    ensures bit { has_bit result place ≡ on }
    ensures bits { (i : ℕ) → i < 8 → i ≢ place → has_bit result i ≡ has_bit byte i }
{
    let mask = 1u8 << place;
    if on { byte | mask } else { byte & !mask }
}

/// Sets bit `k` of the map, in the order of `bit_msb`, to `on`; no other bit changes.
pub fn set_bit_msb(map: &mut [u8], k: usize, on: bool)
    requires { k < 8 * length map.old }
    ensures { ChangesBit bit_msb map.old map.new k on }
{
    map[k / 8] = with_bit(map[k / 8], 7 - k % 8, on);
}

/// Sets bit `k` of the map, in the order of `bit_lsb`, to `on`; no other bit changes.
pub fn set_bit_lsb(map: &mut [u8], k: usize, on: bool)
    requires { k < 8 * length map.old }
    ensures { ChangesBit bit_lsb map.old map.new k on }
{
    map[k / 8] = with_bit(map[k / 8], k % 8, on);
}

/// How many bits of a map of less than 2^29 bytes are set. It is the same number in either order.
pub fn count_bits(map: &[u8]) -> u32
    requires { length map.now < 2 ^ 29 }
    ensures msb { result ≡ count_below (8 * length map.now) (bit_msb map.now) }
    ensures lsb { result ≡ count_below (8 * length map.now) (bit_lsb map.now) }
{
    let mut count = 0;
    for byte in map {
        count += byte.count_ones();
    }
    count
}
