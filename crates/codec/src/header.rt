// The header in the ledger's first bytes. It is read and written in any bytes that hold it: an array would ask callers for all of a ledger.
ghost use Rattle.std.specs.Prelude.{◌≡◌, ◌≤◌, [], ◌∷◌, length};
ghost use Rattle.fields.specs.Fields.{Fit};
ghost use Rattle.records.specs.Pack.{pack};
ghost use Rattle.records.specs.Edits.{replace_at};
ghost use Rattle.layout.specs.Layout.{territory_in, claims_in, pence_in};
ghost use Rattle.layout.specs.Offsets.{first_contract};
ghost use Rattle.layout.specs.Present.{rules, layout};

use fields::get;
use records::numbers::put_all;

// The widths of the fields, in bits.
const TERRITORY_BITS: usize = 1;

const CLAIMS_BITS: usize = 16;

const PENCE_BITS: usize = 47;

// The first bit of each field.
const TERRITORY_AT: usize = 0;

const CLAIMS_AT: usize = TERRITORY_AT + TERRITORY_BITS;

const PENCE_AT: usize = CLAIMS_AT + CLAIMS_BITS;

const WIDTHS: [usize; 3] = [TERRITORY_BITS, CLAIMS_BITS, PENCE_BITS];

pub fn territory(b: &[u8]) -> u32
    requires { first_contract ≤ length b.now }
    ensures { result ≡ territory_in rules layout b.now }
{
    get(b, TERRITORY_AT, TERRITORY_BITS)
}

pub fn claims(b: &[u8]) -> u32
    requires { first_contract ≤ length b.now }
    ensures { result ≡ claims_in rules layout b.now }
{
    get(b, CLAIMS_AT, CLAIMS_BITS)
}

pub fn pence(b: &[u8]) -> u64
    requires { first_contract ≤ length b.now }
    ensures { result ≡ pence_in rules layout b.now }
{
    get(b, PENCE_AT, PENCE_BITS)
}

// Writes the header anew.
pub fn write_header(b: &mut [u8], territory: u32, claims: u32, pence: u64)
    requires { (first_contract ≤ length b.old) × Fit layout.header (territory ∷ claims ∷ pence ∷ []) }
    ensures { b.new ≡ replace_at 0 (pack layout.header (territory ∷ claims ∷ pence ∷ [])) b.old }
{
    put_all(
        b,
        &WIDTHS,
        &[u64::from(territory), u64::from(claims), pence],
    );
}
