// The text of a core, which is written when both cores have ended.
ghost use Rattle.std.specs.Prelude.{OnErr, OnOk, ◌++◌, ◌≡◌};
ghost use Rattle.rt_outside.specs.{Bytes.Took, Bytes.TookPrefix, Faults.HasCause};
ghost use Rattle.rt_live.specs.Account.{account_text};

use crate::kept::KeptText;
use rt_code::Image;
use rt_live::account::{Account, put_account};
use rt_outside::{Failed, Sink, put_all};

/// Writes the text that was kept, and the account behind it. It takes no memory.
#[inline(never)]
pub(crate) fn put_core<K: Sink>(
    out: &mut K,
    text: &KeptText,
    account: &Account,
    image: &Image,
) -> Result<(), Failed>
    ensures ok { OnOk result (Took (K.taken out.old) (K.taken out.new)
        (text.now.bytes.items ++ account_text image.now.names account.now.rows.items)) }
    ensures err { OnErr result (TookPrefix (K.taken out.old) (K.taken out.new)
        (text.now.bytes.items ++ account_text image.now.names account.now.rows.items)) }
    ensures cause { HasCause (K.faults out.old) (K.faults out.new) result }
    ensures quiet { OnOk result (K.faults out.new ≡ K.faults out.old) }
{
    put_all(out, &text.bytes)?;
    put_account(account, &image.names, out)
}
