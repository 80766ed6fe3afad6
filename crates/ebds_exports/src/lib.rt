// The calls for C, exported under their names: each is `ebds_c`'s function of the same name, and include/ebds.h declares it. They stand
// twice, since no crate can use a static library and others call them, too.

#![tactic(auto)]

ghost use Rattle.std.specs.Prelude.{◌≡◌, []};
ghost use Rattle.calendar.specs.Answers.{day_answer, date_answer};
ghost use Rattle.model.specs.declared.Call.{Call};
ghost use Rattle.model.specs.Calls.{◌with◌, request_of, reply_of};
ghost use Rattle.contract_calls.specs.Start.{start_answer, start_bytes};
ghost use Rattle.calls.specs.Replies.{reply_of_day, reply_of_date};
ghost use Rattle.ebds_c.specs.Answers.{Given, Gives};

use model::ANSWER_NUMBERS;

// start (territory).
#[unsafe(no_mangle)]
pub extern "C" fn ebds_start(
    ledger: &mut [u8],
    territory: u32,
    answer: &mut [i64; ANSWER_NUMBERS],
) -> u32
    ensures given { Given (reply_of (start_answer ledger.old territory)) result answer.new }
    ensures ledger_after { ledger.new ≡ start_bytes ledger.old territory }
{
    ebds_c::ebds_start(ledger, territory, answer)
}

// open (contract, fuel, kind, price-fix day, entry day).
#[unsafe(no_mangle)]
pub extern "C" fn ebds_open(
    ledger: &mut [u8],
    contract: u32,
    fuel: u32,
    kind: u32,
    price_fix_day: u32,
    entry_day: u32,
    answer: &mut [i64; ANSWER_NUMBERS],
) -> u32
    ensures { Gives ledger.old (Call.Open contract fuel kind price_fix_day entry_day with []) result answer.new ledger.new }
{
    ebds_c::ebds_open(
        ledger,
        contract,
        fuel,
        kind,
        price_fix_day,
        entry_day,
        answer,
    )
}

// bill (contract, first, last, kWh, S, WAP, ETII share, QHS share).
#[unsafe(no_mangle)]
pub extern "C" fn ebds_bill(
    ledger: &mut [u8],
    book: &[u32],
    contract: u32,
    first: u32,
    last: u32,
    kwh: u32,
    supply: u32,
    wap: u32,
    etii: u32,
    qhs: u32,
    answer: &mut [i64; ANSWER_NUMBERS],
) -> u32
    ensures { Gives ledger.old (Call.Bill (request_of contract first last kwh supply wap etii qhs) with book.now) result answer.new ledger.new }
{
    ebds_c::ebds_bill(
        ledger, book, contract, first, last, kwh, supply, wap, etii, qhs, answer,
    )
}

// rebill, same numbers.
#[unsafe(no_mangle)]
pub extern "C" fn ebds_rebill(
    ledger: &mut [u8],
    book: &[u32],
    contract: u32,
    first: u32,
    last: u32,
    kwh: u32,
    supply: u32,
    wap: u32,
    etii: u32,
    qhs: u32,
    answer: &mut [i64; ANSWER_NUMBERS],
) -> u32
    ensures { Gives ledger.old (Call.Rebill (request_of contract first last kwh supply wap etii qhs) with book.now) result answer.new ledger.new }
{
    ebds_c::ebds_rebill(
        ledger, book, contract, first, last, kwh, supply, wap, etii, qhs, answer,
    )
}

// cert (contract, class, effective day).
#[unsafe(no_mangle)]
pub extern "C" fn ebds_cert(
    ledger: &mut [u8],
    contract: u32,
    class: u32,
    effective_day: u32,
    answer: &mut [i64; ANSWER_NUMBERS],
) -> u32
    ensures { Gives ledger.old (Call.Cert contract class effective_day with []) result answer.new ledger.new }
{
    ebds_c::ebds_cert(ledger, contract, class, effective_day, answer)
}

// cancel (contract, first).
#[unsafe(no_mangle)]
pub extern "C" fn ebds_cancel(
    ledger: &mut [u8],
    contract: u32,
    first: u32,
    answer: &mut [i64; ANSWER_NUMBERS],
) -> u32
    ensures { Gives ledger.old (Call.Cancel contract first with []) result answer.new ledger.new }
{
    ebds_c::ebds_cancel(ledger, contract, first, answer)
}

// claim.
#[unsafe(no_mangle)]
pub extern "C" fn ebds_claim(ledger: &mut [u8], answer: &mut [i64; ANSWER_NUMBERS]) -> u32
    ensures { Gives ledger.old (Call.Claim with []) result answer.new ledger.new }
{
    ebds_c::ebds_claim(ledger, answer)
}

// report (contract). It changes no byte.
#[unsafe(no_mangle)]
pub extern "C" fn ebds_report(
    ledger: &[u8],
    contract: u32,
    answer: &mut [i64; ANSWER_NUMBERS],
) -> u32
    ensures { Gives ledger.now (Call.Report contract with []) result answer.new ledger.now }
{
    ebds_c::ebds_report(ledger, contract, answer)
}

// total. It changes no byte.
#[unsafe(no_mangle)]
pub extern "C" fn ebds_total(ledger: &[u8], answer: &mut [i64; ANSWER_NUMBERS]) -> u32
    ensures { Gives ledger.now (Call.Total with []) result answer.new ledger.now }
{
    ebds_c::ebds_total(ledger, answer)
}

// amend (contract, original end day, price-fix day, entry day).
#[unsafe(no_mangle)]
pub extern "C" fn ebds_amend(
    ledger: &mut [u8],
    contract: u32,
    original_end_day: u32,
    price_fix_day: u32,
    entry_day: u32,
    answer: &mut [i64; ANSWER_NUMBERS],
) -> u32
    ensures { Gives ledger.old (Call.Amend contract original_end_day price_fix_day entry_day with []) result answer.new ledger.new }
{
    ebds_c::ebds_amend(
        ledger,
        contract,
        original_end_day,
        price_fix_day,
        entry_day,
        answer,
    )
}

// day (year, month, day).
#[unsafe(no_mangle)]
pub extern "C" fn ebds_day(
    year: u32,
    month: u32,
    day: u32,
    answer: &mut [i64; ANSWER_NUMBERS],
) -> u32
    ensures { Given (reply_of_day (day_answer year month day)) result answer.new }
{
    ebds_c::ebds_day(year, month, day, answer)
}

// date (day number).
#[unsafe(no_mangle)]
pub extern "C" fn ebds_date(day: u32, answer: &mut [i64; ANSWER_NUMBERS]) -> u32
    ensures { Given (reply_of_date (date_answer day)) result answer.new }
{
    ebds_c::ebds_date(day, answer)
}
