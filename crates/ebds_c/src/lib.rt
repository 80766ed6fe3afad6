// The calls for C, which the static library `ebds_exports` exports: each takes the ledger, the book where document 01 has one, the call's
// numbers in the papers' order, and room for the numbers of the answer; it returns the number of the refusal, 0 where the call is
// accepted. Nothing is required of the bytes.

#![tactic(auto)]

mod answers;

ghost use Rattle.std.specs.Prelude.{◌≡◌, []};
ghost use Rattle.calendar.specs.Answers.{day_answer, date_answer};
ghost use Rattle.model.specs.declared.Call.{Call};
ghost use Rattle.model.specs.Calls.{◌with◌, request_of, reply_of};
ghost use Rattle.contract_calls.specs.Start.{start_answer, start_bytes};
ghost use Rattle.calls.specs.Replies.{reply_of_day, reply_of_date};
ghost use Rattle.ebds_c.specs.Answers.{Given, Gives};

use answers::{give, make};
use calls::replies::{reply_of, reply_of_date, reply_of_day};
use model::{ANSWER_NUMBERS, Call, Request};

// No price book, for the calls that use none.
const NO_BOOK: [u32; 0] = [];

// start (territory).
pub fn ebds_start(ledger: &mut [u8], territory: u32, answer: &mut [i64; ANSWER_NUMBERS]) -> u32
    ensures given { Given (reply_of (start_answer ledger.old territory)) result answer.new }
    ensures ledger_after { ledger.new ≡ start_bytes ledger.old territory }
{
    give(reply_of(contract_calls::start(ledger, territory)), answer)
}

// open (contract, fuel, kind, price-fix day, entry day).
pub fn ebds_open(
    ledger: &mut [u8],
    contract: u32,
    fuel: u32,
    kind: u32,
    price_fix_day: u32,
    entry_day: u32,
    answer: &mut [i64; ANSWER_NUMBERS],
) -> u32
    ensures { Gives ledger.old (Call.Open contract fuel kind price_fix_day entry_day with []) result answer.new ledger.new }
{
    let call = Call::Open {
        contract,
        fuel,
        kind,
        price_fix_day,
        entry_day,
    };
    make(ledger, &NO_BOOK, call, answer)
}

// bill (contract, first, last, kWh, S, WAP, ETII share, QHS share).
pub fn ebds_bill(
    ledger: &mut [u8],
    book: &[u32],
    contract: u32,
    first: u32,
    last: u32,
    kwh: u32,
    supply: u32,
    wap: u32,
    etii: u32,
    qhs: u32,
    answer: &mut [i64; ANSWER_NUMBERS],
) -> u32
    ensures { Gives ledger.old (Call.Bill (request_of contract first last kwh supply wap etii qhs) with book.now) result answer.new ledger.new }
{
    let call = Call::Bill(Request {
        contract,
        first,
        last,
        kwh,
        supply,
        wap,
        etii,
        qhs,
    });
    make(ledger, book, call, answer)
}

// rebill, same numbers; a function of its own, since C calls it by its name.
pub fn ebds_rebill(
    ledger: &mut [u8],
    book: &[u32],
    contract: u32,
    first: u32,
    last: u32,
    kwh: u32,
    supply: u32,
    wap: u32,
    etii: u32,
    qhs: u32,
    answer: &mut [i64; ANSWER_NUMBERS],
) -> u32
    ensures { Gives ledger.old (Call.Rebill (request_of contract first last kwh supply wap etii qhs) with book.now) result answer.new ledger.new }
{
    let call = Call::Rebill(Request {
        contract,
        first,
        last,
        kwh,
        supply,
        wap,
        etii,
        qhs,
    });
    make(ledger, book, call, answer)
}

// cert (contract, class, effective day).
pub fn ebds_cert(
    ledger: &mut [u8],
    contract: u32,
    class: u32,
    effective_day: u32,
    answer: &mut [i64; ANSWER_NUMBERS],
) -> u32
    ensures { Gives ledger.old (Call.Cert contract class effective_day with []) result answer.new ledger.new }
{
    make(
        ledger,
        &NO_BOOK,
        Call::Cert {
            contract,
            class,
            effective_day,
        },
        answer,
    )
}

// cancel (contract, first).
pub fn ebds_cancel(
    ledger: &mut [u8],
    contract: u32,
    first: u32,
    answer: &mut [i64; ANSWER_NUMBERS],
) -> u32
    ensures { Gives ledger.old (Call.Cancel contract first with []) result answer.new ledger.new }
{
    make(ledger, &NO_BOOK, Call::Cancel { contract, first }, answer)
}

// claim.
pub fn ebds_claim(ledger: &mut [u8], answer: &mut [i64; ANSWER_NUMBERS]) -> u32
    ensures { Gives ledger.old (Call.Claim with []) result answer.new ledger.new }
{
    make(ledger, &NO_BOOK, Call::Claim, answer)
}

// report (contract). It changes no byte.
pub fn ebds_report(ledger: &[u8], contract: u32, answer: &mut [i64; ANSWER_NUMBERS]) -> u32
    ensures { Gives ledger.now (Call.Report contract with []) result answer.new ledger.now }
{
    give(reply_of(claim_calls::report(ledger, contract)), answer)
}

// total. It changes no byte.
pub fn ebds_total(ledger: &[u8], answer: &mut [i64; ANSWER_NUMBERS]) -> u32
    ensures { Gives ledger.now (Call.Total with []) result answer.new ledger.now }
{
    give(reply_of(claim_calls::total(ledger)), answer)
}

// amend (contract, original end day, price-fix day, entry day).
pub fn ebds_amend(
    ledger: &mut [u8],
    contract: u32,
    original_end_day: u32,
    price_fix_day: u32,
    entry_day: u32,
    answer: &mut [i64; ANSWER_NUMBERS],
) -> u32
    ensures { Gives ledger.old (Call.Amend contract original_end_day price_fix_day entry_day with []) result answer.new ledger.new }
{
    let call = Call::Amend {
        contract,
        original_end_day,
        price_fix_day,
        entry_day,
    };
    make(ledger, &NO_BOOK, call, answer)
}

// day (year, month, day).
pub fn ebds_day(year: u32, month: u32, day: u32, answer: &mut [i64; ANSWER_NUMBERS]) -> u32
    ensures { Given (reply_of_day (day_answer year month day)) result answer.new }
{
    give(reply_of_day(calendar::day(year, month, day)), answer)
}

// date (day number).
pub fn ebds_date(day: u32, answer: &mut [i64; ANSWER_NUMBERS]) -> u32
    ensures { Given (reply_of_date (date_answer day)) result answer.new }
{
    give(reply_of_date(calendar::date(day)), answer)
}
