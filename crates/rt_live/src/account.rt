// The account of pends, and its lines.

ghost use Rattle.std.specs.Prelude.{OnErr, OnOk, decimal, length, ◌++◌, ◌+◌, ◌∷◌, ◌≡◌, ◌≤◌};
ghost use Rattle.rt_ids.specs.Naming.{irq_name};
ghost use Rattle.rt_outside.specs.{Bytes.Took, Bytes.TookPrefix, Faults.HasCause};
ghost use Rattle.rt_live.specs.declared.account.TheConstants.{ROW_BYTES};
ghost use Rattle.rt_live.specs.Account as spec;

use arrayvec::ArrayVec;
use itoa::Buffer;
use rt_ids::{Irq, Names};
use rt_outside::{Failed, Sink, put_all};

/// How often an interrupt was raised, merged and latched, and whether it was left, over the pends of all lines: of the
/// devices, or of the other core of a pair.
#[derive(Clone, Copy)]
pub struct AccountRow {
    /// The interrupt.
    pub irq: Irq,
    /// Pends that found it not pending.
    pub raised: u64,
    /// Pends that found it pending.
    pub merged: u64,
    /// Latched words with its bit.
    pub latched: u64,
    /// 1 where it is left pending, else 0.
    pub left: u64,
}

/// A row for each declared interrupt, in order.
#[derive(Drop)]
pub struct Account {
    /// The rows, in the order in which the interrupts are declared.
    pub rows: Vec<AccountRow>,
}

/// Writes the lines of an account, a line for each row, one behind the other. It takes no memory.
pub fn put_account<K: Sink>(account: &Account, names: &Names, out: &mut K) -> Result<(), Failed>
    ensures ok { OnOk result
        (Took (K.taken out.old) (K.taken out.new) (spec.account_text names.now account.now.rows.items)) }

    // At a fault a beginning of them was taken.
    ensures err { OnErr result
        (TookPrefix (K.taken out.old) (K.taken out.new) (spec.account_text names.now account.now.rows.items)) }
    ensures cause { HasCause (K.faults out.old) (K.faults out.new) result }
    ensures quiet { OnOk result (K.faults out.new ≡ K.faults out.old) }
{
    for row in &account.rows {
        put_all(out, row_line(row, names).as_slice())?;
    }
    Ok(())
}

/// Bytes for which a line has room: `account`, a name of 32 bytes and four numbers of 20 digits, with a space in front
/// of each, and the line feed are 125.
const ROW_BYTES: usize = 128;

/// The line of a row in the making.
type RowLine = ArrayVec<u8, ROW_BYTES>;

/// The line of a row, with its line feed.
fn row_line(row: &AccountRow, names: &Names) -> RowLine
    ensures { result.items ≡ spec.row_text names.now row.now }
{
    let mut line = RowLine::new();
    put(&mut line, b"account ");
    put_name(&mut line, row.irq, names);
    put_count(&mut line, row.raised);
    put_count(&mut line, row.merged);
    put_count(&mut line, row.latched);
    put_count(&mut line, row.left);
    put(&mut line, b"\n");
    line
}

/// Appends bytes.
fn put(line: &mut RowLine, bytes: &[u8])
    requires { length line.old.items + length bytes.now ≤ ROW_BYTES }
    ensures { line.new.items ≡ line.old.items ++ bytes.now }
{
    let _all = line.try_extend_from_slice(bytes);
}

/// Appends the name of an interrupt.
fn put_name(line: &mut RowLine, irq: Irq, names: &Names)
    requires { length line.old.items + 32 ≤ ROW_BYTES }
    ensures written { line.new.items ≡ line.old.items ++ irq_name names.now irq }
    ensures long { length line.new.items ≤ length line.old.items + 32 }
{
    let _count = names.irq_count();
    put(line, names.irq_name(irq).unwrap_or(b""));
}

/// Appends a space and a number.
fn put_count(line: &mut RowLine, number: u64)
    requires { length line.old.items + 21 ≤ ROW_BYTES }
    ensures written { line.new.items ≡ line.old.items ++ 32 ∷ decimal number }
    ensures long { length line.new.items ≤ length line.old.items + 21 }
{
    let mut buffer = Buffer::new();
    put(line, b" ");
    put(line, buffer.format(number).as_bytes());
}
