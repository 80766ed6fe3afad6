// Up to eight bytes as one word, the first byte the most significant, and the bits of a word by shifts and masks.
ghost use Rattle.std.specs.Prelude.{◌≡◌, ◌+◌, ◌*◌, ◌/◌, ◌%◌, ◌^◌, ◌<◌, ◌≤◌, length};
ghost use Rattle.fields.specs.Field.{value, bits, bits_of, bytes_of_bits};

// The w bits of x that have `below` bits below them.
pub(crate) fn extract(x: u64, below: usize, w: usize) -> u64
    requires { (below < 64) × (w < 64) }
    ensures { result ≡ x / 2 ^ below % 2 ^ w }
{
    (x >> below) & ((1 << w) - 1)
}

// x with v in these bits.
pub(crate) fn insert(x: u64, below: usize, w: usize, v: u64) -> u64
    requires { (0 < w) × ((w < 64) × ((below + w ≤ 64) × (v < 2 ^ w))) }
    ensures { result ≡ (x / 2 ^ below / 2 ^ w * 2 ^ w + v) * 2 ^ below + x % 2 ^ below }
{
    let mask: u64 = (1 << w) - 1;
    (x & !(mask << below)) | (v << below)
}

// The word that the bytes of s make up.
pub(crate) fn load(s: &[u8]) -> u64
    requires { length s.now ≤ 8 }
    ensures { result ≡ value (bits s.now) }
{
    s.iter().fold(0, |x, b| (x << 8) | u64::from(*b))
}

// The same of eight bytes: of this form LLVM makes one load, and of `load` one of each byte where a field's place is known beforehand.
pub(crate) fn load_eight(s: &[u8]) -> u64
    requires { length s.now ≡ 8 }
    ensures { result ≡ value (bits s.now) }
{
    u64::from_be_bytes(<[u8; 8]>::try_from(s).unwrap())
}

// Stores the low bytes of x in all of s.
pub(crate) fn store(s: &mut [u8], x: u64)
    requires { length s.old ≤ 8 }
    ensures { s.new ≡ bytes_of_bits (length s.old) (bits_of (8 * length s.old) x) }
{
    let n = s.len();
    s.copy_from_slice(&x.to_be_bytes()[8 - n..]);
}

// The same of eight bytes: of this form LLVM makes one store, and of `store` several where some bits of x are known beforehand.
pub(crate) fn store_eight(s: &mut [u8], x: u64)
    requires { length s.old ≡ 8 }
    ensures { s.new ≡ bytes_of_bits (length s.old) (bits_of (8 * length s.old) x) }
{
    let Some(bytes) = s.as_mut_array::<8>() else {
        unreachable!();
    };
    *bytes = x.swap_bytes().to_le_bytes();
}
