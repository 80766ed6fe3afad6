// Signed differences, as the calls answer them.

#![tactic(auto)]

ghost use Rattle.std.specs.Prelude.{◌≡◌, ◌<◌, ◌^◌};
ghost use Rattle.std.proofs.Math.IntN.{sub_ℕ};

// The difference of two numbers, with its sign.
pub fn difference(a: u64, b: u64) -> i64
    requires { (a < 2 ^ 62) × (b < 2 ^ 62) }
    ensures { result ≡ sub_ℕ a b }
{
    a as i64 - b as i64
}
