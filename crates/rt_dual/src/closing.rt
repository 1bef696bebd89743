// The words are closed when both cores have ended, and what they tell is the accounts of both.
ghost use Rattle.std.specs.List.{AllByRecursion};
ghost use Rattle.std.specs.Prelude.{map, ◌<◌, ◌≡◌};
ghost use Rattle.rt_live.specs.{Account.HasRoom, Account.settled_row, Account.with_counts, Ready.irqs_of};
ghost use Rattle.rt_dual.specs.Inside.Both.{CanClose, AreAccounts};

use rt_live::account::{Account, AccountRow};
use rt_live::gathering::{add_counts, enter_left};
use rt_words::{Left, Line, Tally, Words};

/// The account of a core, of which these are the rows: what the second core's line did, and what the first core's line
/// did and what is left pending.
#[inline(never)]
fn account_of(mut rows: Vec<AccountRow>, core: u8, far: &Tally, left: &Left) -> Account
    requires core { core < 2 }
    requires room { AllByRecursion HasRoom rows.items }
    requires more { AllByRecursion HasRoom (map (with_counts core 1 0 far.now) rows.items) }
    ensures { result.rows.items ≡ map (settled_row core left.now.bits) (map (with_counts core 0 1 left.now.own)
        (map (with_counts core 1 0 far.now) rows.items)) }
{
    add_counts(&mut rows, core, far, 1, 0);
    enter_left(&mut rows, core, left, 0, 1);
    Account { rows }
}

/// Closes the words when both cores have ended, and answers the accounts of both, of which these are the rows. It takes
/// no memory.
#[inline(never)]
pub(crate) fn accounts_of(
    words: Words,
    mut first: Box<Line>,
    second: Box<Line>,
    one: Vec<AccountRow>,
    two: Vec<AccountRow>,
) -> (Account, Account)
    requires { CanClose words first.value second.value one.items two.items }
    ensures { AreAccounts first.value.calls second.value.calls (irqs_of one.items) (irqs_of two.items)
        result.0.rows.items result.1.rows.items }
{
    let far = first.gather(&words, Box::into_inner(second));
    let left = words.close(Box::into_inner(first));
    (
        account_of(one, 0, &far, &left),
        account_of(two, 1, &far, &left),
    )
}
