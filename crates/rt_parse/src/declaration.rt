// The parser of declarations: the first one, interrupts, the monotonic and resources; and of a listed resource.

ghost use Rattle.rt_parse.specs.Inside.DeclarationView.{head_view};
ghost use Rattle.rt_parse.specs.Inside.Reading.{GivesRead, name_at};
ghost use Rattle.rt_parse.specs.Inside.ReadingList.{names_at};
ghost use Rattle.rt_parse.specs.Inside.ReadingResources.{interrupt_at, interrupts_at, clock_priority_at, clock_at};
ghost use Rattle.rt_parse.specs.Inside.ReadingResources.{monotonic_at, first_value_at, lock_free_at};
ghost use Rattle.rt_parse.specs.Inside.ReadingResources.{locked_resource_at, resource_at, resources_at};
ghost use Rattle.rt_parse.specs.Inside.ReadingResources.{shared_resources_at, local_at, local_resources_at, locals_at};
ghost use Rattle.rt_parse.specs.Inside.ReadingOptions.{ref_resource_at, named_resource_at, listed_resource_at};
ghost use Rattle.rt_parse.specs.Inside.ReadingDeclaration.{dispatchers_at, extension_at, fpu_at, behind_comma_at};
ghost use Rattle.rt_parse.specs.Inside.ReadingDeclaration.{features_at, head_rest_at, priority_bits_at, head_at};

use crate::list::{ListItem, list};
use crate::stop::Stop;
use crate::tokens::{
    at_most, begins_sign, begins_this_name, begins_word, limited_name, limited_word, name, number,
    number_within, sign, this_name, word,
};
use rt_ast::{Ident, IrqTree, ListedTree, LocalTree, MonoTree, SharedTree};
use rt_ids::Limit;
use rt_ids::limits::{IRQ_NUMBERS, IRQS, LEAST_BITS, LOCALS, MOST_BITS, SHARED};
use rt_lex::Tokens;
use std::alloc::Global;

impl ListItem for Ident {
    ghost reads = { λ _. name_at };

    fn read<'a>(
        alloc: Global,
        tokens: Tokens<'a>,
        _before: usize,
    ) -> Result<(Ident, Tokens<'a>), Stop> {
        name(alloc, tokens)
    }
}

/// Names in square brackets.
#[tactic(auto, unfolding(crate::specs::Inside::ReadingList::names_at))]
pub(crate) fn names<'a>(alloc: Global, tokens: Tokens<'a>) -> Result<(Vec<Ident>, Tokens<'a>), Stop>
    ensures { GivesRead (λ x. (x.0.items, x.1)) result (names_at tokens.entry) }
{
    let (_, tokens) = sign(tokens, b"[")?;
    list(alloc, tokens, b"]")
}

/// A declared interrupt, after so many others.
#[tactic(auto, unfolding(crate::specs::Inside::ReadingResources::interrupt_at))]
fn interrupt<'a>(
    alloc: Global,
    tokens: Tokens<'a>,
    before: usize,
) -> Result<(IrqTree, Tokens<'a>), Stop>
    ensures { GivesRead (λ x. x) result (interrupt_at before tokens.entry) }
{
    let limit = at_most(IRQS, Limit::Interrupts, before);
    let (name, tokens) = limited_name(alloc, tokens, limit)?;
    let (_, tokens) = sign(tokens, b"=")?;
    let greatest = u32::from(IRQ_NUMBERS) - 1;
    let (number, tokens) = number_within(tokens, 0, greatest, Limit::Interrupt)?;
    Ok((IrqTree { name, number }, tokens))
}

impl ListItem for IrqTree {
    ghost reads = { interrupt_at };

    fn read<'a>(
        alloc: Global,
        tokens: Tokens<'a>,
        before: usize,
    ) -> Result<(IrqTree, Tokens<'a>), Stop> {
        interrupt(alloc, tokens, before)
    }
}

/// The declared interrupts.
#[tactic(auto, unfolding(crate::specs::Inside::ReadingResources::interrupts_at))]
pub(crate) fn interrupts<'a>(
    alloc: Global,
    tokens: Tokens<'a>,
) -> Result<(Vec<IrqTree>, Tokens<'a>), Stop>
    ensures { GivesRead (λ x. (x.0.items, x.1)) result (interrupts_at tokens.entry) }
{
    let (_, tokens) = word(tokens, b"interrupts")?;
    let (_, tokens) = sign(tokens, b"{")?;
    list(alloc, tokens, b"}")
}

/// The dispatchers, after their comma.
#[tactic(auto, unfolding(crate::specs::Inside::ReadingDeclaration::dispatchers_at))]
fn dispatchers<'a>(alloc: Global, tokens: Tokens<'a>) -> Result<(Vec<Ident>, Tokens<'a>), Stop>
    ensures { GivesRead (λ x. (x.0.items, x.1)) result (dispatchers_at tokens.entry) }
{
    let (_, tokens) = word(tokens, b"dispatchers")?;
    let (_, tokens) = sign(tokens, b"=")?;
    names(alloc, tokens)
}

/// That the core has the floating-point extension, after its comma.
#[tactic(auto, unfolding(crate::specs::Inside::ReadingDeclaration::extension_at))]
fn extension(tokens: Tokens<'_>) -> Result<(bool, Tokens<'_>), Stop>
    ensures { GivesRead (λ x. x) result (extension_at tokens.entry) }
{
    let (_, tokens) = this_name(tokens, b"fpu")?;
    let (_, tokens) = sign(tokens, b"=")?;
    let (_, tokens) = this_name(tokens, b"on")?;
    Ok((true, tokens))
}

/// Whether the core has the floating-point extension, after the dispatchers.
#[tactic(auto, unfolding(crate::specs::Inside::ReadingDeclaration::fpu_at))]
fn fpu(tokens: Tokens<'_>) -> Result<(bool, Tokens<'_>), Stop>
    ensures { GivesRead (λ x. x) result (fpu_at tokens.entry) }
{
    if !begins_sign(&tokens, b",") {
        return Ok((false, tokens));
    }
    let (_, tokens) = sign(tokens, b",")?;
    extension(tokens)
}

/// What follows the first comma, by the next token: the extension, or the dispatchers and perhaps the extension.
#[tactic(auto, unfolding(crate::specs::Inside::ReadingDeclaration::behind_comma_at))]
fn behind_comma<'a>(
    alloc: Global,
    tokens: Tokens<'a>,
) -> Result<((Vec<Ident>, bool), Tokens<'a>), Stop>
    ensures { GivesRead (λ x. ((x.0.0.items, x.0.1), x.1)) result (behind_comma_at tokens.entry) }
{
    if begins_this_name(&tokens, b"fpu") {
        let (fpu, tokens) = extension(tokens)?;
        Ok(((Vec::new(alloc), fpu), tokens))
    } else {
        let (dispatchers, tokens) = dispatchers(alloc, tokens)?;
        let (fpu, tokens) = fpu(tokens)?;
        Ok(((dispatchers, fpu), tokens))
    }
}

/// The dispatchers, and whether the core has the floating-point extension.
#[tactic(auto, unfolding(crate::specs::Inside::ReadingDeclaration::features_at))]
fn features<'a>(alloc: Global, tokens: Tokens<'a>) -> Result<((Vec<Ident>, bool), Tokens<'a>), Stop>
    ensures { GivesRead (λ x. ((x.0.0.items, x.0.1), x.1)) result (features_at tokens.entry) }
{
    if !begins_sign(&tokens, b",") {
        return Ok(((Vec::new(alloc), false), tokens));
    }
    let (_, tokens) = sign(tokens, b",")?;
    behind_comma(alloc, tokens)
}

/// What the first declaration says.
#[derive(Drop)]
pub(crate) struct Head {
    pub(crate) name: Ident,
    pub(crate) bits: u32,
    pub(crate) fpu: bool,
    pub(crate) dispatchers: Vec<Ident>,
}

/// The first declaration after its priority bits.
fn head_rest<'a>(
    alloc: Global,
    tokens: Tokens<'a>,
    name: Ident,
    bits: u32,
) -> Result<(Head, Tokens<'a>), Stop>
    ensures { GivesRead (λ x. (head_view x.0, x.1)) result (head_rest_at name bits tokens.entry) }
{
    let ((dispatchers, fpu), tokens) = features(alloc, tokens)?;
    let (_, tokens) = sign(tokens, b")")?;
    let (_, tokens) = sign(tokens, b";")?;
    let head = Head {
        name,
        bits,
        fpu,
        dispatchers,
    };
    Ok((head, tokens))
}

/// The first declaration from its parenthesis on.
fn priority_bits<'a>(
    alloc: Global,
    tokens: Tokens<'a>,
    name: Ident,
) -> Result<(Head, Tokens<'a>), Stop>
    ensures { GivesRead (λ x. (head_view x.0, x.1)) result (priority_bits_at name tokens.entry) }
{
    let (_, tokens) = sign(tokens, b"(")?;
    let (_, tokens) = word(tokens, b"bits")?;
    let (_, tokens) = sign(tokens, b"=")?;
    let (bits, tokens) = number_within(tokens, LEAST_BITS, MOST_BITS, Limit::Bits)?;
    head_rest(alloc, tokens, name, bits.value)
}

/// The first declaration.
#[tactic(auto, unfolding(crate::specs::Inside::ReadingDeclaration::head_at))]
pub(crate) fn first_declaration<'a>(
    alloc: Global,
    tokens: Tokens<'a>,
) -> Result<(Head, Tokens<'a>), Stop>
    ensures { GivesRead (λ x. (head_view x.0, x.1)) result (head_at tokens.entry) }
{
    let (_, tokens) = word(tokens, b"app")?;
    let (name, tokens) = name(alloc, tokens)?;
    priority_bits(alloc, tokens, name)
}

/// A monotonic's priority, after its interrupt.
fn clock_priority<'a>(
    tokens: Tokens<'a>,
    binds: Ident,
) -> Result<(Option<MonoTree>, Tokens<'a>), Stop>
    ensures { GivesRead (λ x. x) result (clock_priority_at binds tokens.entry) }
{
    let (_, tokens) = sign(tokens, b",")?;
    let (_, tokens) = word(tokens, b"priority")?;
    let (_, tokens) = sign(tokens, b"=")?;
    let (priority, tokens) = number(tokens)?;
    let (_, tokens) = sign(tokens, b")")?;
    let (_, tokens) = sign(tokens, b";")?;
    Ok((Some(MonoTree { binds, priority }), tokens))
}

/// The monotonic from its word on.
#[tactic(auto, unfolding(crate::specs::Inside::ReadingResources::clock_at))]
fn clock<'a>(alloc: Global, tokens: Tokens<'a>) -> Result<(Option<MonoTree>, Tokens<'a>), Stop>
    ensures { GivesRead (λ x. x) result (clock_at tokens.entry) }
{
    let (_, tokens) = word(tokens, b"monotonic")?;
    let (_, tokens) = sign(tokens, b"(")?;
    let (_, tokens) = word(tokens, b"binds")?;
    let (_, tokens) = sign(tokens, b"=")?;
    let (binds, tokens) = name(alloc, tokens)?;
    clock_priority(tokens, binds)
}

/// The monotonic, where one is declared.
#[tactic(auto, unfolding(crate::specs::Inside::ReadingResources::monotonic_at))]
pub(crate) fn monotonic<'a>(
    alloc: Global,
    tokens: Tokens<'a>,
) -> Result<(Option<MonoTree>, Tokens<'a>), Stop>
    ensures { GivesRead (λ x. x) result (monotonic_at tokens.entry) }
{
    if begins_word(&tokens, b"monotonic") {
        clock(alloc, tokens)
    } else {
        Ok((None, tokens))
    }
}

/// The first value of a resource.
#[tactic(auto, unfolding(crate::specs::Inside::ReadingResources::first_value_at))]
fn first_value(tokens: Tokens<'_>) -> Result<(u32, Tokens<'_>), Stop>
    ensures { GivesRead (λ x. x) result (first_value_at tokens.entry) }
{
    let (_, tokens) = sign(tokens, b"=")?;
    let (number, tokens) = number(tokens)?;
    Ok((number.value, tokens))
}

/// A shared resource that is `lock_free`, after so many others.
#[tactic(auto, unfolding(crate::specs::Inside::ReadingResources::lock_free_at))]
fn lock_free<'a>(
    alloc: Global,
    tokens: Tokens<'a>,
    before: usize,
) -> Result<(SharedTree, Tokens<'a>), Stop>
    ensures { GivesRead (λ x. x) result (lock_free_at before tokens.entry) }
{
    let limit = at_most(SHARED, Limit::Shared, before);
    let (_, tokens) = limited_word(tokens, b"lock_free", limit)?;
    let (name, tokens) = name(alloc, tokens)?;
    let (first, tokens) = first_value(tokens)?;
    let lock_free = true;
    Ok((
        SharedTree {
            name,
            first,
            lock_free,
        },
        tokens,
    ))
}

/// A shared resource that is not `lock_free`, after so many others.
#[tactic(auto, unfolding(crate::specs::Inside::ReadingResources::locked_resource_at))]
fn locked_resource<'a>(
    alloc: Global,
    tokens: Tokens<'a>,
    before: usize,
) -> Result<(SharedTree, Tokens<'a>), Stop>
    ensures { GivesRead (λ x. x) result (locked_resource_at before tokens.entry) }
{
    let limit = at_most(SHARED, Limit::Shared, before);
    let (name, tokens) = limited_name(alloc, tokens, limit)?;
    let (first, tokens) = first_value(tokens)?;
    let lock_free = false;
    Ok((
        SharedTree {
            name,
            first,
            lock_free,
        },
        tokens,
    ))
}

/// A shared resource, `lock_free` or not, after so many others.
#[tactic(auto, unfolding(crate::specs::Inside::ReadingResources::resource_at))]
fn resource<'a>(
    alloc: Global,
    tokens: Tokens<'a>,
    before: usize,
) -> Result<(SharedTree, Tokens<'a>), Stop>
    ensures { GivesRead (λ x. x) result (resource_at before tokens.entry) }
{
    if begins_word(&tokens, b"lock_free") {
        lock_free(alloc, tokens, before)
    } else {
        locked_resource(alloc, tokens, before)
    }
}

impl ListItem for SharedTree {
    ghost reads = { resource_at };

    fn read<'a>(
        alloc: Global,
        tokens: Tokens<'a>,
        before: usize,
    ) -> Result<(SharedTree, Tokens<'a>), Stop> {
        resource(alloc, tokens, before)
    }
}

/// The shared resources from their word on.
#[tactic(auto, unfolding(crate::specs::Inside::ReadingResources::resources_at))]
fn resources<'a>(alloc: Global, tokens: Tokens<'a>) -> Result<(Vec<SharedTree>, Tokens<'a>), Stop>
    ensures { GivesRead (λ x. (x.0.items, x.1)) result (resources_at tokens.entry) }
{
    let (_, tokens) = word(tokens, b"shared")?;
    let (_, tokens) = sign(tokens, b"{")?;
    list(alloc, tokens, b"}")
}

/// The shared resources, where any are declared.
#[tactic(auto, unfolding(crate::specs::Inside::ReadingResources::shared_resources_at))]
pub(crate) fn shared_resources<'a>(
    alloc: Global,
    tokens: Tokens<'a>,
) -> Result<(Vec<SharedTree>, Tokens<'a>), Stop>
    ensures { GivesRead (λ x. (x.0.items, x.1)) result (shared_resources_at tokens.entry) }
{
    if begins_word(&tokens, b"shared") {
        resources(alloc, tokens)
    } else {
        Ok((Vec::new(alloc), tokens))
    }
}

/// A local resource, after so many others.
#[tactic(auto, unfolding(crate::specs::Inside::ReadingResources::local_at))]
fn local<'a>(
    alloc: Global,
    tokens: Tokens<'a>,
    before: usize,
) -> Result<(LocalTree, Tokens<'a>), Stop>
    ensures { GivesRead (λ x. x) result (local_at before tokens.entry) }
{
    let limit = at_most(LOCALS, Limit::Locals, before);
    let (name, tokens) = limited_name(alloc, tokens, limit)?;
    let (first, tokens) = first_value(tokens)?;
    Ok((LocalTree { name, first }, tokens))
}

impl ListItem for LocalTree {
    ghost reads = { local_at };

    fn read<'a>(
        alloc: Global,
        tokens: Tokens<'a>,
        before: usize,
    ) -> Result<(LocalTree, Tokens<'a>), Stop> {
        local(alloc, tokens, before)
    }
}

/// The local resources from their word on.
#[tactic(auto, unfolding(crate::specs::Inside::ReadingResources::local_resources_at))]
fn local_resources<'a>(
    alloc: Global,
    tokens: Tokens<'a>,
) -> Result<(Vec<LocalTree>, Tokens<'a>), Stop>
    ensures { GivesRead (λ x. (x.0.items, x.1)) result (local_resources_at tokens.entry) }
{
    let (_, tokens) = word(tokens, b"local")?;
    let (_, tokens) = sign(tokens, b"{")?;
    list(alloc, tokens, b"}")
}

/// The local resources, where any are declared.
#[tactic(auto, unfolding(crate::specs::Inside::ReadingResources::locals_at))]
pub(crate) fn locals<'a>(
    alloc: Global,
    tokens: Tokens<'a>,
) -> Result<(Vec<LocalTree>, Tokens<'a>), Stop>
    ensures { GivesRead (λ x. (x.0.items, x.1)) result (locals_at tokens.entry) }
{
    if begins_word(&tokens, b"local") {
        local_resources(alloc, tokens)
    } else {
        Ok((Vec::new(alloc), tokens))
    }
}

/// A shared resource that a body lists by reference, from its `&` on.
#[tactic(auto, unfolding(crate::specs::Inside::ReadingOptions::ref_resource_at))]
fn ref_resource<'a>(alloc: Global, tokens: Tokens<'a>) -> Result<(ListedTree, Tokens<'a>), Stop>
    ensures { GivesRead (λ x. x) result (ref_resource_at tokens.entry) }
{
    let (at, tokens) = sign(tokens, b"&")?;
    let (name, tokens) = name(alloc, tokens)?;
    let by_ref = true;
    Ok((ListedTree { name, by_ref, at }, tokens))
}

/// A shared resource that a body lists by its name.
#[tactic(auto, unfolding(crate::specs::Inside::ReadingOptions::named_resource_at))]
fn named_resource<'a>(alloc: Global, tokens: Tokens<'a>) -> Result<(ListedTree, Tokens<'a>), Stop>
    ensures { GivesRead (λ x. x) result (named_resource_at tokens.entry) }
{
    let (name, tokens) = name(alloc, tokens)?;
    let (by_ref, at) = (false, name.at);
    Ok((ListedTree { name, by_ref, at }, tokens))
}

/// A shared resource that a body lists, by its name or by reference.
#[tactic(auto, unfolding(crate::specs::Inside::ReadingOptions::listed_resource_at))]
fn listed_resource<'a>(alloc: Global, tokens: Tokens<'a>) -> Result<(ListedTree, Tokens<'a>), Stop>
    ensures { GivesRead (λ x. x) result (listed_resource_at tokens.entry) }
{
    if begins_sign(&tokens, b"&") {
        ref_resource(alloc, tokens)
    } else {
        named_resource(alloc, tokens)
    }
}

impl ListItem for ListedTree {
    ghost reads = { λ _. listed_resource_at };

    fn read<'a>(
        alloc: Global,
        tokens: Tokens<'a>,
        _before: usize,
    ) -> Result<(ListedTree, Tokens<'a>), Stop> {
        listed_resource(alloc, tokens)
    }
}
