// The price book: its test, the reference price of a bill by its terms, and the bill with that price.
ghost use Rattle.std.specs.Prelude.{◌≡◌, get_or};
ghost use Rattle.model.specs.Book.{book_index, reference};
ghost use Rattle.model.specs.Calls.{bill_under};
ghost use Rattle.model.specs.PresentRules.{bad_book, no_price};

use crate::codes;
use amounts::Bill;
use limits::{BOOK_LENGTH, DAY_COUNT, HIGHEST_PRICE};
use model::Request;
use rates::{Contract, Fuel, Kind, Terms};

// How many days a fuel's fixed prices have, and how many months its variable prices and the index have.
const DAYS: usize = DAY_COUNT as usize;

const MONTHS: usize = 12;

// The first entries of variable and of index prices: those of both fuels stand before them.
const FIRST_VARIABLE_ENTRY: usize = 2 * DAYS;

const FIRST_INDEX_ENTRY: usize = FIRST_VARIABLE_ENTRY + 2 * MONTHS;

// The book has another length than it must, or an entry above the highest price. It reads on after such an entry: of this form LLVM makes
// steps of several entries.
pub fn bad_book(book: &[u32]) -> bool
    ensures { result ≡ bad_book book.now }
{
    if book.len() != BOOK_LENGTH {
        return true;
    }
    let mut highest: u32 = 0;
    for price in book {
        highest = highest.max(*price);
    }
    HIGHEST_PRICE < highest
}

// The entry of a fixed, variable or index contract's price.
fn index_of(fuel: Fuel, kind: Kind, first: u32) -> usize
    ensures { result ≡ book_index fuel kind first }
{
    let code = codes::fuel_code(fuel) as usize;
    let month = calendar::scheme_month(first) as usize;
    match kind {
        Kind::Fixed { price_fix_day, .. } => code * DAYS + price_fix_day as usize,
        Kind::Variable => FIRST_VARIABLE_ENTRY + code * MONTHS + month,
        Kind::Flexible => 0,
        Kind::Index => FIRST_INDEX_ENTRY + month,
    }
}

// The price in an entry of the book, 0 past its end.
fn price_at(book: &[u32], index: usize) -> u32
    ensures { result ≡ get_or book.now index 0 }
{
    book.get(index).copied().unwrap_or(0)
}

// The reference price by the terms: the weighted price of a flexible contract, else the book's.
#[tactic(auto, unfolding(model::specs::Book::reference))]
pub fn reference(terms: Terms, first: u32, wap: u32, book: &[u32]) -> u32
    ensures { result ≡ reference terms first wap book.now }
{
    if codes::is_flexible(terms.kind) {
        return wap;
    }
    price_at(book, index_of(terms.fuel, terms.kind, first))
}

// The price that is needed is 0: a flexible contract needs none.
#[tactic(auto, unfolding(model::specs::PresentRules::no_price))]
pub fn no_price(kind: Kind, reference: u32) -> bool
    ensures { result ≡ no_price kind reference }
{
    !codes::is_flexible(kind) && reference == 0
}

// The bill of a request under its contract, with the reference price from the book or the request.
pub fn bill_under(contract: Contract, request: Request, book: &[u32]) -> Bill
    ensures { result ≡ bill_under contract request book.now }
{
    let terms = contract.terms_for(request.first);
    Bill {
        contract: request.contract,
        first: request.first,
        last: request.last,
        kwh: request.kwh,
        etii: request.etii,
        qhs: request.qhs,
        reference: reference(terms, request.first, request.wap, book),
        supply: request.supply,
    }
}
