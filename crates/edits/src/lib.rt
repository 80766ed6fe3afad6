// Edits of the packed ledger's bytes: a row is inserted, removed or replaced, a contract is written, and a fresh ledger is made.

#![tactic(auto)]

ghost use Rattle.std.specs.Prelude.{◌≡◌, ◌+◌, ◌*◌, ◌^◌, ◌≤◌, ◌<◌};
ghost use Rattle.limits.specs.Limits.{contract_count, row_count};
ghost use Rattle.fields.specs.Fields.{Fit};
ghost use Rattle.records.specs.Edits.{insert_at, remove_at, replace_at, on_part};
ghost use Rattle.model.specs.Ledger.{fresh, with_amount};
ghost use Rattle.layout.specs.PresentLayout.{contract_record, row_record};
ghost use Rattle.layout.specs.Offsets.{first_contract, contract_length, first_row, row_start, row_part, row_length};
ghost use Rattle.records.specs.OneSlot.{record_bytes, IsPacked};
ghost use Rattle.layout.specs.Present.{bytes, row_at};
ghost use Rattle.edits.specs.RowEdits.{Insertable, Replaceable, Removable};

use codec::contracts::packed_contract;
use codec::header::write_header;
use codec::rows::{packed_row, put_amount};
use layout::{CONTRACT_LENGTH, FIRST_CONTRACT, FIRST_ROW, LEDGER_LENGTH, ROW_LENGTH};
use model::Row;
use rates::Contract;

// Of the `rows` held rows, those from row i on move up, and the row comes in at place i.
pub fn insert_row(b: &mut [u8; LEDGER_LENGTH], rows: usize, i: usize, row: Row)
    requires { Insertable rows i row }
    ensures { b.new ≡ on_part first_row (row_start (rows + 1)) (insert_at (i * row_length) (record_bytes row_record row)) b.old }
{
    let end = FIRST_ROW + (rows + 1) * ROW_LENGTH;
    records::insert(&mut b[FIRST_ROW..end], i * ROW_LENGTH, &packed_row(row));
}

// Of the `rows` held rows, row i goes, those after it move down, and the last slot is free.
pub fn remove_row(b: &mut [u8; LEDGER_LENGTH], rows: usize, i: usize)
    requires { Removable rows i }
    ensures { b.new ≡ on_part first_row (row_start rows) (remove_at (i * row_length) row_length) b.old }
{
    let end = FIRST_ROW + rows * ROW_LENGTH;
    records::remove(&mut b[FIRST_ROW..end], i * ROW_LENGTH, ROW_LENGTH);
}

// Writes the row in the place of row i.
pub fn replace_row(b: &mut [u8; LEDGER_LENGTH], i: usize, row: Row)
    requires { Replaceable i row }
    ensures { b.new ≡ replace_at (row_start i) (record_bytes row_record row) b.old }
{
    let at = FIRST_ROW + i * ROW_LENGTH;
    records::replace(b, at, &packed_row(row));
}

// Writes the amount of row i, which is held.
pub fn replace_amount(b: &mut [u8; LEDGER_LENGTH], i: usize, amount: u64)
    requires inside { i < row_count }
    requires packed { IsPacked row_record (row_part b.old i) }
    requires low { amount < 2 ^ 50 }
    ensures { b.new ≡ replace_at (row_start i) (record_bytes row_record (with_amount (row_at b.old i) amount)) b.old }
{
    let start = FIRST_ROW + i * ROW_LENGTH;
    put_amount(&mut b[start..start + ROW_LENGTH], amount);
}

// Writes the contract under the number c, whether or not that number was open.
pub fn write_contract(b: &mut [u8; LEDGER_LENGTH], c: usize, contract: Contract)
    requires inside { c < contract_count }
    requires fits { Fit contract_record.widths (contract_record.values contract) }
    ensures { b.new ≡ replace_at (first_contract + c * contract_length) (record_bytes contract_record contract) b.old }
{
    let at = FIRST_CONTRACT + c * CONTRACT_LENGTH;
    records::replace(b, at, &packed_contract(contract));
}

// Makes the bytes a fresh ledger, whatever they were.
pub fn fresh(b: &mut [u8; LEDGER_LENGTH], territory: u32)
    requires { territory ≤ 1 }
    ensures { b.new ≡ bytes (fresh territory) }
{
    records::clear(b);
    write_header(b, territory, 0, 0);
}
