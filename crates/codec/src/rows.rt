// A row in its bytes.
ghost use Rattle.std.specs.Prelude.{◌≡◌, not, ◌∷◌, ◌++◌, suc, ◌^◌, ◌<◌, length, drop};
ghost use Rattle.model.specs.Ledger.{with_amount};
ghost use Rattle.fields.specs.Fields.{Fit};
ghost use Rattle.records.specs.Slots.{all_zero, zeros_for};
ghost use Rattle.layout.specs.PresentLayout.{row_record};
ghost use Rattle.layout.specs.Offsets.{row_length};
ghost use Rattle.records.specs.OneSlot.{slot_numbers, is_taken, record_in, record_bytes, IsPacked};

use amounts::Bill;
use fields::get_window;
use layout::ROW_LENGTH;
use model::Row;
use records::numbers::put_all;

// The widths of the fields and of the zeros after them, in bits.
const CONTRACT_BITS: usize = 6;

const DAY_BITS: usize = 10;

const KWH_BITS: usize = 27;

const PRICE_BITS: usize = 20;

const AMOUNT_BITS: usize = 50;

const ZERO_BITS: usize = 2;

// The first bit of each field, after the bit that says whether the slot is held, and of the zeros.
const CONTRACT_AT: usize = 1;

const FIRST_AT: usize = CONTRACT_AT + CONTRACT_BITS;

const LAST_AT: usize = FIRST_AT + DAY_BITS;

const KWH_AT: usize = LAST_AT + DAY_BITS;

const ETII_AT: usize = KWH_AT + KWH_BITS;

const QHS_AT: usize = ETII_AT + KWH_BITS;

const REFERENCE_AT: usize = QHS_AT + KWH_BITS;

const SUPPLY_AT: usize = REFERENCE_AT + PRICE_BITS;

const AMOUNT_AT: usize = SUPPLY_AT + PRICE_BITS;

const ZEROS_AT: usize = AMOUNT_AT + AMOUNT_BITS;

// The first bytes of the windows of eight bytes that hold both shares, that hold both prices, and that end with the slot's last byte and
// hold the amount and the zeros; the fields before the shares are in the first eight bytes.
const SHARES_WINDOW: usize = ETII_AT / 8;

const PRICES_WINDOW: usize = REFERENCE_AT / 8;

const AMOUNT_WINDOW: usize = ROW_LENGTH - 8;

// How many numbers a slot has, and their widths.
const NUMBERS: usize = 11;

const WIDTHS: [usize; NUMBERS] = [
    1,
    CONTRACT_BITS,
    DAY_BITS,
    DAY_BITS,
    KWH_BITS,
    KWH_BITS,
    KWH_BITS,
    PRICE_BITS,
    PRICE_BITS,
    AMOUNT_BITS,
    ZERO_BITS,
];

// Whether a row's slot is held.
pub fn is_held(s: &[u8; ROW_LENGTH]) -> bool
    ensures { result ≡ is_taken row_record s.now }
{
    get_window::<u32>(s, 0, 0, 1) != 0
}

// A bit of the zeros is set.
pub fn padding_set(s: &[u8; ROW_LENGTH]) -> bool
    ensures { result ≡ not (all_zero (drop (suc (length row_record.widths)) (slot_numbers row_record s.now))) }
{
    get_window::<u32>(s, AMOUNT_WINDOW, ZEROS_AT, ZERO_BITS) != 0
}

// The row that a slot holds.
pub fn unpack_row(s: &[u8; ROW_LENGTH]) -> Row
    ensures { result ≡ record_in row_record s.now }
{
    Row {
        bill: Bill {
            contract: get_window(s, 0, CONTRACT_AT, CONTRACT_BITS),
            first: get_window(s, 0, FIRST_AT, DAY_BITS),
            last: get_window(s, 0, LAST_AT, DAY_BITS),
            kwh: get_window(s, 0, KWH_AT, KWH_BITS),
            etii: get_window(s, SHARES_WINDOW, ETII_AT, KWH_BITS),
            qhs: get_window(s, SHARES_WINDOW, QHS_AT, KWH_BITS),
            reference: get_window(s, PRICES_WINDOW, REFERENCE_AT, PRICE_BITS),
            supply: get_window(s, PRICES_WINDOW, SUPPLY_AT, PRICE_BITS),
        },
        amount: get_window(s, AMOUNT_WINDOW, AMOUNT_AT, AMOUNT_BITS),
    }
}

// The numbers of the slot that holds the row.
fn slot_numbers(row: Row) -> [u64; NUMBERS]
    ensures { result ≡ 1 ∷ (row_record.values row ++ zeros_for row_record.zeros) }
{
    let bill = row.bill;
    [
        1,
        u64::from(bill.contract),
        u64::from(bill.first),
        u64::from(bill.last),
        u64::from(bill.kwh),
        u64::from(bill.etii),
        u64::from(bill.qhs),
        u64::from(bill.reference),
        u64::from(bill.supply),
        row.amount,
        0,
    ]
}

// The slot that holds the row.
pub fn packed_row(row: Row) -> [u8; ROW_LENGTH]
    requires { Fit row_record.widths (row_record.values row) }
    ensures { result ≡ record_bytes row_record row }
{
    let mut slot = [0; ROW_LENGTH];
    put_all(&mut slot, &WIDTHS, &slot_numbers(row));
    slot
}

// Writes the amount of the row that a slot holds. The slot is a slice: of an array lent out of the ledger no clause says that what is
// written to it is written to the ledger.
pub fn put_amount(s: &mut [u8], amount: u64)
    requires { (length s.old ≡ row_length) × (IsPacked row_record s.old × (amount < 2 ^ 50)) }
    ensures { s.new ≡ record_bytes row_record (with_amount (record_in row_record s.old) amount) }
{
    fields::put_window(s, AMOUNT_WINDOW, AMOUNT_AT, AMOUNT_BITS, amount);
}
