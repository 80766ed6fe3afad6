// Records of any size in lent bytes: put in, taken out, written over, and tested for zeros; and the numbers of one record.

#![tactic(auto)]

pub mod numbers;

ghost use Rattle.std.specs.Prelude.{◌≡◌, ◌+◌, ◌≤◌, length, replicate};
ghost use Rattle.records.specs.Edits.{insert_at, remove_at, replace_at, zero_at};

// Writes the bytes `new` over those from byte `at` on.
pub fn replace(b: &mut [u8], at: usize, new: &[u8])
    requires { at + length new.now ≤ length b.old }
    ensures { b.new ≡ replace_at at new.now b.old }
{
    b[at..at + new.len()].copy_from_slice(new);
}

// Sets every byte to zero.
pub fn clear(b: &mut [u8])
    ensures { b.new ≡ replicate (length b.old) 0 }
{
    b.fill(0);
}

// Whether n bytes from byte `at` on are zero. It reads on after one that isn't: of this form LLVM makes steps of many bytes.
pub fn is_zero(b: &[u8], at: usize, n: usize) -> bool
    requires { at + n ≤ length b.now }
    ensures { result ≡ zero_at at n b.now }
{
    b[at..at + n].iter().fold(0, |bits, x| bits | *x) == 0
}

// Puts the bytes `new` in at byte `at`. What stood from there on moves up by their length, and as many bytes at the end are lost.
pub fn insert(b: &mut [u8], at: usize, new: &[u8])
    requires { at + length new.now ≤ length b.old }
    ensures { b.new ≡ insert_at at new.now b.old }
{
    let kept = b.len() - new.len();
    b.copy_within(at..kept, at + new.len());
    replace(b, at, new);
}

// Takes n bytes out from byte `at` on. What stood after them moves down by n, and n zeros come at the end.
pub fn remove(b: &mut [u8], at: usize, n: usize)
    requires { at + n ≤ length b.old }
    ensures { b.new ≡ remove_at at n b.old }
{
    let kept = b.len() - n;
    b.copy_within(at + n.., at);
    clear(&mut b[kept..]);
}
