// What the gate asks of the functions that are open to others, from outside the crates that have them: each is called by a function whose
// contract says in full what a caller is promised. None has a `requires`, but for the room that the whole output needs. And all that is
// established, as the contract of a function.

#![tactic(auto)]

ghost use Rattle.std.specs.Prelude.{◌≡◌, [], ◌≤◌, length, take, drop};
ghost use Rattle.model.specs.declared.Call.{Call};
ghost use Rattle.model.specs.Calls.{◌with◌, reply_of};
ghost use Rattle.layout.specs.Present.{machine};
ghost use Rattle.calendar.specs.Answers.{day_answer, date_answer};
ghost use Rattle.contract_calls.specs.Start.{start_answer, start_bytes};
ghost use Rattle.calls.specs.Replies.{reply_of_day, reply_of_date};
ghost use Rattle.session.specs.Transcript.{transcript, most_output};
ghost use Rattle.established.specs.Established.{Established};

use model::{ANSWER_NUMBERS, Request};

// start (territory).
pub fn start(ledger: &mut [u8], territory: u32, answer: &mut [i64; ANSWER_NUMBERS]) -> u32
    ensures value { result ≡ (reply_of (start_answer ledger.old territory)).refused }
    ensures answer_after { answer.new ≡ (reply_of (start_answer ledger.old territory)).numbers }
    ensures ledger_after { ledger.new ≡ start_bytes ledger.old territory }
{
    ebds_c::ebds_start(ledger, territory, answer)
}

// open (contract, fuel, kind, price-fix day, entry day).
pub fn open_contract(
    ledger: &mut [u8],
    contract: u32,
    fuel: u32,
    kind: u32,
    price_fix_day: u32,
    entry_day: u32,
    answer: &mut [i64; ANSWER_NUMBERS],
) -> u32
    ensures value { result ≡ (reply_of (machine.answer ledger.old (Call.Open contract fuel kind price_fix_day entry_day with []))).refused }
    ensures answer_after { answer.new ≡ (reply_of (machine.answer ledger.old (Call.Open contract fuel kind price_fix_day entry_day with []))).numbers }
    ensures ledger_after { ledger.new ≡ machine.step ledger.old (Call.Open contract fuel kind price_fix_day entry_day with []) }
{
    ebds_c::ebds_open(
        ledger,
        contract,
        fuel,
        kind,
        price_fix_day,
        entry_day,
        answer,
    )
}

// bill (contract, first, last, kWh, S, WAP, ETII share, QHS share).
pub fn bill(
    ledger: &mut [u8],
    book: &[u32],
    request: Request,
    answer: &mut [i64; ANSWER_NUMBERS],
) -> u32
    ensures value { result ≡ (reply_of (machine.answer ledger.old (Call.Bill request with book.now))).refused }
    ensures answer_after { answer.new ≡ (reply_of (machine.answer ledger.old (Call.Bill request with book.now))).numbers }
    ensures ledger_after { ledger.new ≡ machine.step ledger.old (Call.Bill request with book.now) }
{
    ebds_c::ebds_bill(
        ledger,
        book,
        request.contract,
        request.first,
        request.last,
        request.kwh,
        request.supply,
        request.wap,
        request.etii,
        request.qhs,
        answer,
    )
}

// rebill, same numbers.
pub fn rebill(
    ledger: &mut [u8],
    book: &[u32],
    request: Request,
    answer: &mut [i64; ANSWER_NUMBERS],
) -> u32
    ensures value { result ≡ (reply_of (machine.answer ledger.old (Call.Rebill request with book.now))).refused }
    ensures answer_after { answer.new ≡ (reply_of (machine.answer ledger.old (Call.Rebill request with book.now))).numbers }
    ensures ledger_after { ledger.new ≡ machine.step ledger.old (Call.Rebill request with book.now) }
{
    ebds_c::ebds_rebill(
        ledger,
        book,
        request.contract,
        request.first,
        request.last,
        request.kwh,
        request.supply,
        request.wap,
        request.etii,
        request.qhs,
        answer,
    )
}

// cert (contract, class, effective day).
pub fn cert(
    ledger: &mut [u8],
    contract: u32,
    class: u32,
    effective_day: u32,
    answer: &mut [i64; ANSWER_NUMBERS],
) -> u32
    ensures value { result ≡ (reply_of (machine.answer ledger.old (Call.Cert contract class effective_day with []))).refused }
    ensures answer_after { answer.new ≡ (reply_of (machine.answer ledger.old (Call.Cert contract class effective_day with []))).numbers }
    ensures ledger_after { ledger.new ≡ machine.step ledger.old (Call.Cert contract class effective_day with []) }
{
    ebds_c::ebds_cert(ledger, contract, class, effective_day, answer)
}

// cancel (contract, first).
pub fn cancel(
    ledger: &mut [u8],
    contract: u32,
    first: u32,
    answer: &mut [i64; ANSWER_NUMBERS],
) -> u32
    ensures value { result ≡ (reply_of (machine.answer ledger.old (Call.Cancel contract first with []))).refused }
    ensures answer_after { answer.new ≡ (reply_of (machine.answer ledger.old (Call.Cancel contract first with []))).numbers }
    ensures ledger_after { ledger.new ≡ machine.step ledger.old (Call.Cancel contract first with []) }
{
    ebds_c::ebds_cancel(ledger, contract, first, answer)
}

// claim.
pub fn claim(ledger: &mut [u8], answer: &mut [i64; ANSWER_NUMBERS]) -> u32
    ensures value { result ≡ (reply_of (machine.answer ledger.old (Call.Claim with []))).refused }
    ensures answer_after { answer.new ≡ (reply_of (machine.answer ledger.old (Call.Claim with []))).numbers }
    ensures ledger_after { ledger.new ≡ machine.step ledger.old (Call.Claim with []) }
{
    ebds_c::ebds_claim(ledger, answer)
}

// report (contract).
pub fn report(ledger: &[u8], contract: u32, answer: &mut [i64; ANSWER_NUMBERS]) -> u32
    ensures value { result ≡ (reply_of (machine.answer ledger.now (Call.Report contract with []))).refused }
    ensures answer_after { answer.new ≡ (reply_of (machine.answer ledger.now (Call.Report contract with []))).numbers }
    ensures ledger_value { ledger.now ≡ machine.step ledger.now (Call.Report contract with []) }
{
    ebds_c::ebds_report(ledger, contract, answer)
}

// total.
pub fn total(ledger: &[u8], answer: &mut [i64; ANSWER_NUMBERS]) -> u32
    ensures value { result ≡ (reply_of (machine.answer ledger.now (Call.Total with []))).refused }
    ensures answer_after { answer.new ≡ (reply_of (machine.answer ledger.now (Call.Total with []))).numbers }
    ensures ledger_value { ledger.now ≡ machine.step ledger.now (Call.Total with []) }
{
    ebds_c::ebds_total(ledger, answer)
}

// amend (contract, original end day, price-fix day, entry day).
pub fn amend(
    ledger: &mut [u8],
    contract: u32,
    original_end_day: u32,
    price_fix_day: u32,
    entry_day: u32,
    answer: &mut [i64; ANSWER_NUMBERS],
) -> u32
    ensures value { result ≡ (reply_of (machine.answer ledger.old (Call.Amend contract original_end_day price_fix_day entry_day with []))).refused }
    ensures answer_after { answer.new ≡ (reply_of (machine.answer ledger.old (Call.Amend contract original_end_day price_fix_day entry_day with []))).numbers }
    ensures ledger_after { ledger.new ≡ machine.step ledger.old (Call.Amend contract original_end_day price_fix_day entry_day with []) }
{
    ebds_c::ebds_amend(
        ledger,
        contract,
        original_end_day,
        price_fix_day,
        entry_day,
        answer,
    )
}

// day (year, month, day).
pub fn day(year: u32, month: u32, day: u32, answer: &mut [i64; ANSWER_NUMBERS]) -> u32
    ensures value { result ≡ (reply_of_day (day_answer year month day)).refused }
    ensures answer_after { answer.new ≡ (reply_of_day (day_answer year month day)).numbers }
{
    ebds_c::ebds_day(year, month, day, answer)
}

// date (day number).
pub fn date(day: u32, answer: &mut [i64; ANSWER_NUMBERS]) -> u32
    ensures value { result ≡ (reply_of_date (date_answer day)).refused }
    ensures answer_after { answer.new ≡ (reply_of_date (date_answer day)).numbers }
{
    ebds_c::ebds_date(day, answer)
}

// The program: the whole output for the whole input, with the rest of the buffer as it was.
pub fn whole_output(input: &[u8], out: &mut [u8]) -> usize
    requires { most_output ≤ length out.old }
    ensures value { result ≡ length (transcript input.now) }
    ensures out_after { take result out.new ≡ transcript input.now }
    ensures out_unchanged { drop result out.new ≡ drop result out.old }
{
    session::session(input, out)
}

// All that is established.
pub fn all_established()
    ensures { Established }
{}
