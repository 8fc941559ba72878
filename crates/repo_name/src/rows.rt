//! A live lock's row, and the one form in bytes that frames and the ledger share.

ghost use Rattle.std.specs.Prelude.{◌≡◌, ◌≢◌, ◌≤◌, ◌<◌, ◌^◌, ◌++◌, ◌∷◌, [], ℕ, List, length, All, IfOk, IsErrOf, OnOk, OnErr};
ghost use Rattle.std.specs.List.{flat_map};
ghost use Rattle.std.specs.Io.{StartsWith};
ghost use Rattle.repo_name.specs.Rows.{number, truth, IsHost, IsRow, row_bytes, rows_bytes, RowsAreOne, HasNoRows, HasNoRowsWithin};
ghost use Rattle.repo_name.specs.declared.rows.LockRow.{LockRow};
ghost use Rattle.repo_name.specs.declared.rows.RowError.{RowError};

use crate::fields::{append_count, count_at, host_at, number_at, truth_at};
use crate::payloads::Text;
use crate::tokens::Token;
use byteorder::{BigEndian, ByteOrder};
use std::alloc::{AllocError, Global};
use thiserror::Error;

/// A live lock: its token, whether it excludes all others, and who took it when.
#[derive(Clone, Debug, Drop, PartialEq)]
pub struct LockRow {
    pub token: Token,
    pub exclusive: bool,
    /// Seconds since 1970, by the clock of the client that took or refreshed it.
    pub time: u64,
    /// The name of the client's machine, 1 to 255 bytes.
    pub host: Text,
}

/// Why no row was read.
#[derive(Clone, Copy, Debug, PartialEq, Eq, Error)]
pub enum RowError {
    /// No row's bytes stand there: they are cut, a truth value is neither 0 nor 1, or the host isn't
    /// 1 to 255 bytes of UTF-8.
    #[error("no lock row")]
    Shape,
    #[error("out of memory")]
    Memory,
}

impl From<AllocError> for RowError {
    ghost use Rattle.std.specs.Prelude.{◌≡◌};
    ghost use Rattle.repo_name.specs.declared.rows.RowError.{RowError};

    ghost from_gives = { λ e r. r ≡ RowError.Memory };

    fn from(_: AllocError) -> RowError {
        RowError::Memory
    }
}

/// The truth value in a byte.
fn truth_byte(value: bool) -> u8
    ensures { result ≡ truth value }
{
    if value { 1 } else { 0 }
}

/// The row's bytes before the host's own.
fn row_head(row: &LockRow) -> [u8; 18]
    requires { length row.now.host ≤ 255 }
    ensures { result ≡ number row.now.token.0 ++ truth row.now.exclusive ∷ number row.now.time ++ length row.now.host ∷ [] }
{
    let mut head = [0; 18];
    BigEndian::write_u64(&mut head, row.token.0);
    head[8] = truth_byte(row.exclusive);
    BigEndian::write_u64(&mut head[9..], row.time);
    head[17] = row.host.as_str().len() as u8;
    head
}

/// Appends the row's bytes. It fails for memory alone, and then nothing was appended.
pub fn append_row(row: &LockRow, out: &mut Vec<u8>) -> Result<(), AllocError>
    requires { IsHost row.now.host }
    ensures ok { OnOk result (out.new.items ≡ out.old.items ++ row_bytes row.now) }
    ensures err { OnErr result (out.new.items ≡ out.old.items) }
{
    let host = row.host.as_str().as_bytes();
    let head = row_head(row);
    out.reserve(head.len() + host.len())?;
    out.extend_from_slice(&head)?;
    out.extend_from_slice(host)
}

/// The row at the front, and the bytes after it.
///
/// `Shape` comes exactly where no row's bytes stand at the front. Memory is asked for the host alone.
pub fn read_row(alloc: Global, bytes: &[u8]) -> Result<(LockRow, &[u8]), RowError>
    ensures found { IfOk result (λ x. IsRow x.0 × (bytes.now ≡ row_bytes x.0 ++ x.1.now)) }
    ensures shape { IsErrOf result RowError.Shape → (row : LockRow) (rest : List ℕ) → IsRow row → bytes.now ≢ row_bytes row ++ rest }
{
    let (token, rest) = number_at(bytes).ok_or(RowError::Shape)?;
    let (exclusive, rest) = truth_at(rest).ok_or(RowError::Shape)?;
    let (time, rest) = number_at(rest).ok_or(RowError::Shape)?;
    let (host, rest) = host_at(rest).ok_or(RowError::Shape)?;
    let host = Text::of(String::from_str(alloc, host)?);
    let token = Token(token);
    Ok((
        LockRow {
            token,
            exclusive,
            time,
            host,
        },
        rest,
    ))
}

/// Appends rows behind their count. It fails for memory alone, and then the bytes are at least those that
/// were there.
pub fn append_rows(rows: &[LockRow], out: &mut Vec<u8>) -> Result<(), AllocError>
    requires few { length rows.now < 2 ^ 16 }
    requires rows { All IsRow rows.now }
    ensures ok { OnOk result (out.new.items ≡ out.old.items ++ rows_bytes rows.now) }
    ensures kept { StartsWith out.new.items out.old.items }
{
    append_count(rows.len(), out)?;
    for row in rows {
        append_row(row, out)?;
    }
    Ok(())
}

/// So many rows at the front, and the bytes after them.
fn rows_at(alloc: Global, count: usize, bytes: &[u8]) -> Result<(Vec<LockRow>, &[u8]), RowError>
    ensures found { IfOk result (λ x. (length x.0.items ≡ count) × All IsRow x.0.items × (bytes.now ≡ flat_map row_bytes x.0.items ++ x.1.now)) }
    ensures shape { IsErrOf result RowError.Shape → HasNoRows count bytes.now }
{
    let mut rows = Vec::with_capacity(alloc, count)?;
    let mut rest = bytes;
    for _ in 0..count {
        let (row, after) = read_row(alloc, rest)?;
        rows.push(row).map_err(|_| RowError::Memory)?;
        rest = after;
    }
    Ok((rows, rest))
}

/// The rows at the front behind their count, at most so many, and the bytes after them.
///
/// `Shape` comes exactly where the bytes of no such rows stand at the front.
pub fn read_rows(
    alloc: Global,
    limit: usize,
    bytes: &[u8],
) -> Result<(Vec<LockRow>, &[u8]), RowError>
    requires { limit < 2 ^ 16 }
    ensures found { IfOk result (λ x. (length x.0.items ≤ limit) × All IsRow x.0.items × (bytes.now ≡ rows_bytes x.0.items ++ x.1.now)) }
    ensures shape { IsErrOf result RowError.Shape → HasNoRowsWithin limit bytes.now }
{
    let (count, rest) = count_at(bytes).ok_or(RowError::Shape)?;
    if count > limit {
        return Err(RowError::Shape);
    }
    rows_at(alloc, count, rest)
}

/// Rows in bytes read in one way, whatever follows them.
pub fn rows_are_one()
    ensures { RowsAreOne }
{}
