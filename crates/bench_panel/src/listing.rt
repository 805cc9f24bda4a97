// The records of the lists that recovery leaves, and of the table that replay leaves.
use crate::{hex, printing};
use records::record;
use records::record::Record;
use std::io;
use table::row::RowRecord;

fn print_entry(rt: &impl Print, entries: &[u8], k: usize) -> io::Result<()> {
    let entry = lists::entries::entry_at(entries, k);
    console::print_line(
        rt,
        b"entry",
        &[entry.tx_id, entry.place, entry.len, u64::from(entry.kind)],
    )
}

// `entry TX PLACE LENGTH KIND` for each entry.
pub(crate) fn print_entries(rt: &impl Print, entries: &[u8], n: usize) -> io::Result<()> {
    for k in 0..n {
        print_entry(rt, entries, k)?;
    }
    Ok(())
}

fn print_transaction(rt: &impl Print, transactions: &[u8], k: usize) -> io::Result<()> {
    let transaction = lists::transactions::transaction_at(transactions, k);
    console::print_line(
        rt,
        b"transaction",
        &[
            transaction.tx_id,
            transaction.action as u64,
            transaction.count,
        ],
    )
}

// `transaction TX ACTION COUNT` for each transaction.
pub(crate) fn print_transactions(rt: &impl Print, transactions: &[u8], n: usize) -> io::Result<()> {
    for k in 0..n {
        print_transaction(rt, transactions, k)?;
    }
    Ok(())
}

fn print_set(rt: &impl Print, key: &[u8], value: &[u8]) -> io::Result<()> {
    rt.write_all(b"set ")?;
    hex::print(rt, key)?;
    printing::print_bytes(rt, b"", value)
}

// The record at the front of the rows. A value's length that is false runs on into the records behind it; what it says beyond
// the table's end is not there.
fn print_row(rt: &impl Print, rows: &[u8]) -> io::Result<()> {
    let row = RowRecord::read(rows);
    if row.mark == table::row::LIVE {
        print_set(
            rt,
            fields::part(rows, table::row::KEY, row.key_len),
            fields::part(rows, table::row::VALUE, row.value_len),
        )?;
    }
    Ok(())
}

// `set KEY VALUE` for each live record.
pub(crate) fn print_rows(rt: &impl Print, table: &[u8]) -> io::Result<()> {
    for k in 0..table.len() / RowRecord::SIZE {
        print_row(rt, record::bytes_from::<RowRecord>(table, k))?;
    }
    Ok(())
}
