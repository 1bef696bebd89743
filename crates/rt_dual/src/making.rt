// What is made for two cores before they run.
ghost use Rattle.std.specs.List.{AllByRecursion};
ghost use Rattle.std.specs.Prelude.{IfOk, OnOk, [], ℕ, ◌<◌, ◌∷◌, ◌≡◌};
ghost use Rattle.rt_ids.specs.declared.limits.TheConstants.{IRQ_NUMBERS};
ghost use Rattle.rt_words.specs.{Lines.word_count, Lines.new_line, declared.row.TheConstants.ROW_WORDS};
ghost use Rattle.rt_listing.specs.Numbers.{HasTypedNumbers};
ghost use Rattle.rt_live.specs.{Account.declared_irqs, Ready.HasBits, Ready.irqs_of};
ghost use Rattle.rt_dual.specs.{Forwarded.forward, Inside.Both.AreBefore, Inside.Both.front, Inside.Both.leads_by};

use crate::kept::KeptText;
use crate::routes::{RouteTable, table_of};
use rt_code::Image;
use rt_ids::{NoMemory, push_bytes};
use rt_listing::listing;
use rt_live::account::AccountRow;
use rt_live::making::{add_bits, rows_of};
use rt_live::{CoreRole, Share};
use rt_words::{Line, ROW_WORDS, Words};
use std::alloc::Global;

/// What is made for a core.
#[derive(Drop)]
pub struct Side {
    /// Its line of the words.
    pub line: Box<Line>,
    /// Which events come to it, and where its posts lead.
    pub role: CoreRole<RouteTable>,
    /// Its text so far: what is written in front of its trace, and the trace.
    pub text: KeptText,
    /// The rows of its account.
    pub rows: Vec<AccountRow>,
}

/// All that is made for two cores.
#[derive(Drop)]
pub struct Both {
    /// The pending words of both, with the bits of their declared interrupts.
    pub words: Words,
    /// What is made for the first core.
    pub first: Side,
    /// What is made for the second core.
    pub second: Side,
}

/// What is written in front of the trace of a core: its own line, the listing of its image and the trace's own line.
#[inline(never)]
fn front_of(alloc: Global, head: &[u8], image: &Image) -> Result<KeptText, NoMemory>
    ensures text { IfOk result (λ text. text.bytes.items ≡ front head.now image.now) }
    ensures numbers { IfOk result (λ _. HasTypedNumbers image.now) }
{
    let listed = listing(alloc, image)?;
    let mut bytes = Vec::new(alloc);
    push_bytes(&mut bytes, head)?;
    push_bytes(&mut bytes, listed.as_slice())?;
    push_bytes(&mut bytes, b"trace\n")?;
    Ok(KeptText { bytes, failed: 0 })
}

/// What is made for a core that calls the words by this line.
#[inline(never)]
fn side_of(
    alloc: Global,
    share: Share,
    head: &[u8],
    image: &Image,
    other: &Image,
    line: Box<Line>,
    rows: Vec<AccountRow>,
) -> Result<Side, NoMemory>
    requires { AllByRecursion (λ irq. irq < IRQ_NUMBERS) (declared_irqs image.now.names) }
    ensures line { IfOk result (λ side. side.line.value ≡ line.value) }
    ensures rows { IfOk result (λ side. side.rows.items ≡ rows.items) }
    ensures shares { IfOk result (λ side. side.role.share ≡ share) }
    ensures routes { IfOk result (λ side. (irq : ℕ)
        → leads_by side.role.routes irq ≡ forward image.now other.now.names irq) }
    ensures text { IfOk result (λ side. side.text.bytes.items ≡ front head.now image.now) }
    ensures numbers { IfOk result (λ _. HasTypedNumbers image.now) }
{
    let routes = table_of(alloc, image, &other.names)?;
    let text = front_of(alloc, head, image)?;
    Ok(Side {
        line,
        role: CoreRole { share, routes },
        text,
        rows,
    })
}

/// Words for the interrupts of both cores, of which these are the rows, and the first core's line.
#[inline(never)]
fn words_of(
    alloc: Global,
    first: &[AccountRow],
    second: &[AccountRow],
) -> Result<(Words, Box<Line>), NoMemory>
    ensures many { IfOk result (λ r. word_count r.0 ≡ ROW_WORDS) }
    ensures may_one { IfOk result (λ r. HasBits 0 r.0.may (irqs_of first.now)) }
    ensures may_two { IfOk result (λ r. HasBits 1 r.0.may (irqs_of second.now)) }
    ensures line { IfOk result (λ r. r.1.value ≡ new_line r.0 255 0 1) }
    ensures one { IfOk result (λ _. AllByRecursion (λ irq. irq < IRQ_NUMBERS) (irqs_of first.now)) }
    ensures two { IfOk result (λ _. AllByRecursion (λ irq. irq < IRQ_NUMBERS) (irqs_of second.now)) }
{
    let mut may = [0; 32];
    add_bits(&mut may, 0, first);
    add_bits(&mut may, 1, second);
    let (words, line) = Words::make(alloc, ROW_WORDS, may, 1)?;
    Ok((words, Box::new(alloc, line)?))
}

/// The second core's line, which the first core's line makes.
#[inline(never)]
fn second_line(alloc: Global, words: &Words, first: &mut Line) -> Result<Box<Line>, NoMemory>
    requires { first.old ≡ new_line words.now 255 0 1 }
    ensures first { OnOk result (first.new ≡ record first.old { made = 254 ∷ [] }) }
    ensures second { IfOk result (λ line. line.value ≡ new_line words.now 254 1 0) }
{
    let line = first.split(words, 254, 1, 0);
    Ok(Box::new(alloc, line)?)
}

/// Makes what the cores of two images want of memory before they run.
#[inline(never)]
pub(crate) fn both_of(alloc: Global, first: &Image, second: &Image) -> Result<Both, NoMemory>
    ensures { IfOk result (AreBefore first.now second.now) }
{
    let one = rows_of(alloc, &first.names)?;
    let two = rows_of(alloc, &second.names)?;
    let (words, mut near) = words_of(alloc, &one, &two)?;
    let far = second_line(alloc, &words, &mut near)?;
    let first_side = side_of(alloc, Share::First, b"core 1\n", first, second, near, one)?;
    let second_side = side_of(alloc, Share::Second, b"core 2\n", second, first, far, two)?;
    Ok(Both {
        words,
        first: first_side,
        second: second_side,
    })
}
