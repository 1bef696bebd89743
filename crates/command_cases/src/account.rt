// The account behind a trace: a line for each declared interrupt, which says what became of its pends.

/// The total and the lines of the account, behind the items of a trace.
pub(crate) fn end_of(output: &str) -> Option<(&str, &str)> {
    let (_items, end) = output.split_once("\ntotal ")?;
    end.split_once('\n')
}

/// The number that a word is in its one spelling, with neither a sign nor a 0 that could be left out.
fn number(word: &str) -> Option<u64> {
    if word.starts_with('+') || (word.starts_with('0') && word != "0") {
        return None;
    }
    word.parse::<u64>().ok()
}

/// Whether a line of an account is one of an interrupt that was pended so often: each pend raised it or was merged, one
/// at least raised it where there was any, and each that raised it was latched, but for so many at the most, which are
/// left.
fn is_row(line: &str, irq: &str, pends: u64, most_left: u64) -> Option<bool> {
    let row = line
        .strip_prefix("account ")?
        .strip_prefix(irq)?
        .strip_prefix(" ")?;
    let (raised, rest) = row.split_once(' ')?;
    let (merged, rest) = rest.split_once(' ')?;
    let (latched, left) = rest.split_once(' ')?;
    let raised = number(raised)?;
    let left = number(left)?;
    let sum = raised.checked_add(number(merged)?)?;
    let found = number(latched)?.checked_add(left)?;
    Some(sum == pends && (raised == 0) == (pends == 0) && found == raised && left <= most_left)
}

/// Whether an account has just the lines of some interrupts in order, each given with the number of its pends, of which
/// so many at the most are left.
pub(crate) fn is_account(account: &str, pends: &str, most_left: u64) -> Option<bool> {
    let mut rows = account.lines();
    for line in pends.lines() {
        let (irq, count) = line.split_once(' ')?;
        if !is_row(rows.next()?, irq, count.parse::<u64>().ok()?, most_left)? {
            return Some(false);
        }
    }
    Some(rows.next().is_none())
}
