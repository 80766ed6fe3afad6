// A contract in its bytes.
ghost use Rattle.std.specs.Prelude.{◌≡◌, not, ◌∷◌, ◌++◌, suc, length, drop};
ghost use Rattle.fields.specs.Fields.{Fit};
ghost use Rattle.records.specs.Slots.{slot_ok, all_zero, zeros_for, record_fields};
ghost use Rattle.layout.specs.PresentLayout.{contract_record};
ghost use Rattle.records.specs.OneSlot.{slot_numbers, is_taken, record_in, record_bytes};
ghost use Rattle.model.specs.PresentRules.{contract_ranges};
ghost use Rattle.rules.specs.ContractListed.{listed};

use fields::get_window;
use layout::CONTRACT_LENGTH;
use rates::Contract;
use records::numbers::put_all;
use rules::codes::ContractNumbers;
use rules::ranges::contract_ranges;

// The widths of the fields and of the zeros after them, in bits.
const FUEL_BITS: usize = 1;

const KIND_BITS: usize = 2;

const DAY_BITS: usize = 10;

const CLASS_BITS: usize = 2;

const FLAG_BITS: usize = 1;

const ZERO_BITS: usize = 5;

// The first bit of each field, after the bit that says whether the contract is open, and of the zeros.
const FUEL_AT: usize = 1;

const KIND_AT: usize = FUEL_AT + FUEL_BITS;

const PRICE_FIX_AT: usize = KIND_AT + KIND_BITS;

const ENTRY_AT: usize = PRICE_FIX_AT + DAY_BITS;

const CLASS_AT: usize = ENTRY_AT + DAY_BITS;

const EFFECTIVE_AT: usize = CLASS_AT + CLASS_BITS;

const FLAG_AT: usize = EFFECTIVE_AT + DAY_BITS;

const ORIGINAL_END_AT: usize = FLAG_AT + FLAG_BITS;

const AMENDED_PRICE_FIX_AT: usize = ORIGINAL_END_AT + DAY_BITS;

const AMENDED_ENTRY_AT: usize = AMENDED_PRICE_FIX_AT + DAY_BITS;

const ZEROS_AT: usize = AMENDED_ENTRY_AT + DAY_BITS;

// The first byte of the window of eight bytes that ends with the slot's last byte and holds the amendment's entry day and the zeros; the
// fields before them are in the first eight bytes.
const LAST_WINDOW: usize = CONTRACT_LENGTH - 8;

// How many numbers a slot has, and their widths.
const NUMBERS: usize = 12;

const WIDTHS: [usize; NUMBERS] = [
    1, FUEL_BITS, KIND_BITS, DAY_BITS, DAY_BITS, CLASS_BITS, DAY_BITS, FLAG_BITS, DAY_BITS,
    DAY_BITS, DAY_BITS, ZERO_BITS,
];

// Whether a contract's slot is open.
pub fn is_open(s: &[u8; CONTRACT_LENGTH]) -> bool
    ensures { result ≡ is_taken contract_record s.now }
{
    get_window::<u32>(s, 0, 0, 1) != 0
}

// The numbers of the contract that a slot holds.
fn numbers_in(s: &[u8; CONTRACT_LENGTH]) -> ContractNumbers
    ensures { listed result ≡ record_fields contract_record (slot_numbers contract_record s.now) }
{
    ContractNumbers {
        fuel: get_window(s, 0, FUEL_AT, FUEL_BITS),
        kind: get_window(s, 0, KIND_AT, KIND_BITS),
        price_fix_day: get_window(s, 0, PRICE_FIX_AT, DAY_BITS),
        entry_day: get_window(s, 0, ENTRY_AT, DAY_BITS),
        class: get_window(s, 0, CLASS_AT, CLASS_BITS),
        effective_day: get_window(s, 0, EFFECTIVE_AT, DAY_BITS),
        amendment_flag: get_window(s, 0, FLAG_AT, FLAG_BITS),
        original_end_day: get_window(s, 0, ORIGINAL_END_AT, DAY_BITS),
        amended_price_fix_day: get_window(s, 0, AMENDED_PRICE_FIX_AT, DAY_BITS),
        amended_entry_day: get_window(s, LAST_WINDOW, AMENDED_ENTRY_AT, DAY_BITS),
    }
}

// The contract that a slot holds.
pub fn unpack_contract(s: &[u8; CONTRACT_LENGTH]) -> Contract
    ensures { result ≡ record_in contract_record s.now }
{
    Contract::from(numbers_in(s))
}

// The numbers of the slot that holds the contract.
fn slot_numbers(contract: Contract) -> [u64; NUMBERS]
    ensures { result ≡ 1 ∷ (contract_record.values contract ++ zeros_for contract_record.zeros) }
{
    let numbers = ContractNumbers::from(contract);
    [
        1,
        u64::from(numbers.fuel),
        u64::from(numbers.kind),
        u64::from(numbers.price_fix_day),
        u64::from(numbers.entry_day),
        u64::from(numbers.class),
        u64::from(numbers.effective_day),
        u64::from(numbers.amendment_flag),
        u64::from(numbers.original_end_day),
        u64::from(numbers.amended_price_fix_day),
        u64::from(numbers.amended_entry_day),
        0,
    ]
}

// The slot that holds the contract.
pub fn packed_contract(contract: Contract) -> [u8; CONTRACT_LENGTH]
    requires { Fit contract_record.widths (contract_record.values contract) }
    ensures { result ≡ record_bytes contract_record contract }
{
    let mut slot = [0; CONTRACT_LENGTH];
    put_all(&mut slot, &WIDTHS, &slot_numbers(contract));
    slot
}

// A bit of the zeros is set.
fn padding_set(s: &[u8; CONTRACT_LENGTH]) -> bool
    ensures { result ≡ not (all_zero (drop (suc (length contract_record.widths)) (slot_numbers contract_record s.now))) }
{
    get_window::<u32>(s, LAST_WINDOW, ZEROS_AT, ZERO_BITS) != 0
}

// The numbers of an open contract's slot keep their ranges.
fn in_ranges(s: &[u8; CONTRACT_LENGTH], territory: u32) -> bool
    ensures { result ≡ contract_ranges territory (record_fields contract_record (slot_numbers contract_record s.now)) }
{
    contract_ranges(territory, numbers_in(s))
}

// All of the slot is zero.
fn all_zero(s: &[u8; CONTRACT_LENGTH]) -> bool
    ensures { result ≡ all_zero (slot_numbers contract_record s.now) }
{
    records::is_zero(s, 0, CONTRACT_LENGTH)
}

// Whether a contract's slot is as it must be: zeros last, all zeros where it is not open, and its numbers in their ranges.
pub fn slot_ok(s: &[u8; CONTRACT_LENGTH], territory: u32) -> bool
    ensures { result ≡ slot_ok contract_record (contract_ranges territory) (slot_numbers contract_record s.now) }
{
    if padding_set(s) {
        return false;
    }
    if is_open(s) {
        in_ranges(s, territory)
    } else {
        all_zero(s)
    }
}
