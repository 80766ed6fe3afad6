// Rows by their place, and rows found by their order: ascending by contract, then day.
ghost use Rattle.std.specs.Prelude.{◌≡◌, ◌<◌, ◌≤◌, ltb, drop, unwrap_or, IfSome};
ghost use Rattle.limits.specs.Limits.{last_day, row_count};
ghost use Rattle.model.specs.Calls.{named, sharing, ends_after};
ghost use Rattle.model.specs.Ledger.{comes_after};
ghost use Rattle.model.specs.Places.{place_of, first_passes, reaches};
ghost use Rattle.layout.specs.Offsets.{row_part};
ghost use Rattle.layout.specs.Present.{facts, row_at, Searched};
ghost use Rattle.ledger.specs.Answered.{view_of};

use amounts::Bill;
use layout::{FIRST_ROW, LEDGER_LENGTH, ROW_LENGTH};
use model::Row;

// Whether a bill has that contract and first day.
#[tactic(auto, unfolding(model::specs::Calls::named))]
fn is_named(contract: u32, first: u32, bill: Bill) -> bool
    ensures { result ≡ named contract first bill }
{
    bill.contract == contract && bill.first == first
}

// Whether a bill of that contract shares a day with the span.
#[tactic(auto, unfolding(model::specs::Calls::sharing))]
fn is_sharing(contract: u32, first: u32, last: u32, bill: Bill) -> bool
    ensures { result ≡ sharing contract first last bill }
{
    bill.contract == contract && bill.first <= last && first <= bill.last
}

// Whether a bill of that contract ends after the day.
#[tactic(auto, unfolding(model::specs::Calls::ends_after))]
fn is_ending_after(contract: u32, day: u32, bill: Bill) -> bool
    ensures { result ≡ ends_after contract day bill }
{
    bill.contract == contract && day < bill.last
}

// Whether a bill comes after that day of the contract: it is of a later contract, or begins later. In steps, since of one expression LLVM
// works out every part: a bill's place took 20 instructions a row in place of 12.
pub fn comes_after(contract: u32, day: u32, bill: Bill) -> bool
    ensures { result ≡ comes_after contract day bill }
{
    if contract < bill.contract {
        return true;
    }
    if contract == bill.contract {
        return day < bill.first;
    }
    false
}

// Whether a bill is of a later contract, or ends on that day of the contract or after it.
#[tactic(auto, unfolding(model::specs::Places::reaches))]
fn is_reaching(contract: u32, day: u32, bill: Bill) -> bool
    ensures { result ≡ reaches contract day bill }
{
    contract < bill.contract || (contract == bill.contract && day <= bill.last)
}

// The bytes of row slot i.
pub(crate) fn slot(b: &[u8; LEDGER_LENGTH], i: usize) -> &[u8; ROW_LENGTH]
    requires { i < row_count }
    ensures { result.now ≡ row_part b.now i }
{
    let at = FIRST_ROW + i * ROW_LENGTH;
    b[at..at + ROW_LENGTH].as_array().unwrap()
}

// The row in slot i.
pub fn row_at(b: &[u8; LEDGER_LENGTH], i: usize) -> Row
    requires { i < row_count }
    ensures { result ≡ row_at b.now i }
{
    codec::rows::unpack_row(slot(b, i))
}

// The held rows of a well-formed ledger: its bytes, and how many rows there are. A function that writes takes the two by themselves, since
// after a row is put in or taken out the number is another.
#[derive(Clone, Copy)]
pub struct HeldRows<'a> {
    pub bytes: &'a [u8; LEDGER_LENGTH],
    pub count: usize,
    ghost searched: { Searched bytes.now count },
}

impl HeldRows<'_> {
    // The bill of row i.
    fn bill(self, i: usize) -> Bill
        requires { i < self.count }
        ensures { result ≡ (row_at self.entry.bytes.now i).bill }
    {
        row_at(self.bytes, i).bill
    }

    // The place of the first held row that is of a later contract, or that ends on that day of the contract or after it; the number of rows
    // where there is none. The rows are halved: once a row is such, all later ones are. The library's `partition_point` halves a slice of
    // items; of the packed slots, cut by `as_chunks`, it took lemmas of its own to say that item i is row i.
    pub fn first_reaching(self, contract: u32, day: u32) -> usize
        ensures { result ≡ place_of (reaches contract day) (facts self.entry.bytes.now).rows }
    {
        let mut low = 0;
        let mut high = self.count;
        while low < high {
            let middle = low + (high - low) / 2;
            if is_reaching(contract, day, self.bill(middle)) {
                high = middle;
            } else {
                low = middle + 1;
            }
        }
        low
    }

    // The place of the row with that contract and first day, if there is one: of the rows that reach the day it can only be the first.
    pub fn place_named(self, contract: u32, first: u32) -> Option<usize>
        ensures place { unwrap_or result self.entry.count ≡ place_of (named contract first) (facts self.entry.bytes.now).rows }
        ensures inside { IfSome result (λ i. i < self.entry.count) }
    {
        let place = self.first_reaching(contract, first);
        if place < self.count && is_named(contract, first, self.bill(place)) {
            Some(place)
        } else {
            None
        }
    }

    // Whether row i is held and is one of the contract that shares a day with the span.
    pub fn shares_day(self, i: usize, contract: u32, first: u32, last: u32) -> bool
        ensures { result ≡ first_passes (sharing contract first last) (drop i (facts self.entry.bytes.now).rows) }
    {
        i < self.count && is_sharing(contract, first, last, self.bill(i))
    }

    // Whether a held row of the contract ends after the day: of the rows that reach the next day the first does, or none.
    pub fn ends_after(self, contract: u32, day: u32) -> bool
        requires { day ≤ last_day }
        ensures { result ≡ ltb 0 ((view_of self.entry.bytes.now).held (ends_after contract day)) }
    {
        let place = self.first_reaching(contract, day + 1);
        place < self.count && is_ending_after(contract, day, self.bill(place))
    }

    // The place of a new row: the first held row that sorts after it, or the end of the held rows.
    pub fn place_of_new(self, contract: u32, first: u32) -> usize
        ensures { result ≡ place_of (comes_after contract first) (facts self.entry.bytes.now).rows }
    {
        let mut i: usize = 0;
        // A loop that yields the place by break, and no search by the library: the form that document 01 names for it.
        let place = loop {
            if i == self.count {
                break i;
            }
            if comes_after(contract, first, self.bill(i)) {
                break i;
            }
            i += 1;
        };
        place
    }
}
