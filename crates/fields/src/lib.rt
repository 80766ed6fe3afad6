// Packed fields: reads and writes a field of 1 to 57 bits at any bit offset of lent bytes, most significant bit first.

#![tactic(auto)]

mod word;

ghost use Rattle.std.specs.Prelude.{◌≡◌, ℕ, ◌+◌, ◌*◌, ◌^◌, ◌<◌, ◌≤◌, length};
ghost use Rattle.std.proofs.Common.{lit≤};
ghost use Rattle.fields.specs.Field.{field_at, set_field};

use word::{extract, insert, load, load_eight, store, store_eight};

// A type of numbers that a field can be read as.
pub trait Number {
    // How many bits the widest field has that can be read as this type.
    ghost widest: { ℕ };

    // The number that a value is.
    ghost value: { Self → ℕ };

    fn of_word(word: u64) -> Self
        requires { word < 2 ^ widest }
        ensures { value result ≡ word };

    // Eight bytes hold such a field at any offset.
    ghost readable: { widest ≤ 57 };
}

impl Number for u32 {
    ghost widest = { 32 };

    ghost value = { λ x. x };

    ghost readable = { lit≤ tt };

    fn of_word(word: u64) -> u32 {
        word as u32
    }
}

impl Number for u64 {
    ghost widest = { 57 };

    ghost value = { λ x. x };

    ghost readable = { lit≤ tt };

    fn of_word(word: u64) -> u64 {
        word
    }
}

// The first of the eight bytes that are loaded for the field of w bits from bit `at` on: the byte that
// holds bit `at`, or the eighth byte from the end if that comes before it. At most 7 bits of the first
// byte come before the field, so that eight bytes hold a field of 57 bits at any offset.
fn window_start(len: usize, at: usize, w: usize) -> usize
    requires { (8 ≤ len) × ((w ≤ 57) × (at + w ≤ 8 * len)) }
    ensures { (result + 8 ≤ len) × ((8 * result ≤ at) × (at + w ≤ 8 * result + 64)) }
{
    (at / 8).min(len - 8)
}

// What the field of w bits from bit `at` on holds, all of it in the window of eight bytes from byte `first` on. Where `first` is known
// beforehand, several fields of one window take one load. A field's first bit and its width are two numbers: what is asked of them is asked
// of the bytes, too, so that a struct of both could hold little of it.
pub fn get_window<T: Number>(s: &[u8], first: usize, at: usize, w: usize) -> T
    requires { (0 < w) × ((w ≤ T.widest) × ((first + 8 ≤ length s.now) × ((8 * first ≤ at) × (at + w ≤ 8 * first + 64)))) }
    ensures { T.value result ≡ field_at s.now at w }
{
    let word = load_eight(&s[first..first + 8]);
    T::of_word(extract(word, 64 - (at - first * 8) - w, w))
}

// What the field of w bits from bit `at` on holds. Eight bytes are loaded at once, or all of a shorter
// slice.
pub fn get<T: Number>(s: &[u8], at: usize, w: usize) -> T
    requires { (0 < w) × ((w ≤ T.widest) × (at + w ≤ 8 * length s.now)) }
    ensures { T.value result ≡ field_at s.now at w }
{
    let n = s.len();
    if n < 8 {
        return T::of_word(extract(load(s), n * 8 - at - w, w));
    }
    get_window(s, window_start(n, at, w), at, w)
}

// Puts v in the field of w bits from bit `at` on, all of it in the window of eight bytes from byte `first` on, and changes no other bit.
pub fn put_window(s: &mut [u8], first: usize, at: usize, w: usize, v: u64)
    requires { (0 < w) × ((w ≤ 57) × ((first + 8 ≤ length s.old) × ((8 * first ≤ at) × ((at + w ≤ 8 * first + 64) × (v < 2 ^ w))))) }
    ensures { s.new ≡ set_field s.old at w v }
{
    let x = insert(
        load_eight(&s[first..first + 8]),
        64 - (at - first * 8) - w,
        w,
        v,
    );
    store_eight(&mut s[first..first + 8], x);
}

// Puts v in the field of w bits from bit `at` on, and changes no other bit.
pub fn put(s: &mut [u8], at: usize, w: usize, v: u64)
    requires { (0 < w) × ((w ≤ 57) × ((at + w ≤ 8 * length s.old) × (v < 2 ^ w))) }
    ensures { s.new ≡ set_field s.old at w v }
{
    let n = s.len();
    if n < 8 {
        let x = insert(load(s), n * 8 - at - w, w, v);
        store(s, x);
        return;
    }
    put_window(s, window_start(n, at, w), at, w, v);
}
