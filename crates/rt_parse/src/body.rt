// The parser of bodies with their options, of tasks and of the whole application.

ghost use Rattle.std.specs.Prelude.{◌≡◌, ◌&&◌, [], ◌∷◌, codes, length, map, not, is_none};
ghost use Rattle.rt_lex.specs.Token.{is_this_sign, is_this_word};
ghost use Rattle.rt_ast.specs.View.{block_of, body_of, task_of, app_of, option_map};
ghost use Rattle.rt_grammar.specs.Options.{no_options, is_task, is_init};
ghost use Rattle.rt_grammar.specs.Bodies.{or_empty};
ghost use Rattle.rt_parse.specs.Inside.Reading.{GivesRead, begins_with, repeat_at};
ghost use Rattle.rt_parse.specs.Inside.ReadingList.{items_at, adds_at};
ghost use Rattle.rt_parse.specs.Inside.ReadingOptions.{binds_at, priority_at, capacity_at, shared_list_at};
ghost use Rattle.rt_parse.specs.Inside.ReadingOptions.{local_list_at, option_comes, option_at, some_options_at};
ghost use Rattle.rt_parse.specs.Inside.ReadingOptions.{options_at};
ghost use Rattle.rt_parse.specs.Inside.ReadingBodies.{thread_at, thread_body_at, one_argument_at, argument_at};
ghost use Rattle.rt_parse.specs.Inside.ReadingBodies.{parameters_at, task_arguments_at, task_is, task_block_at};
ghost use Rattle.rt_parse.specs.Inside.ReadingBodies.{task_at};
ghost use Rattle.rt_parse.specs.Inside.ReadingDeclaration.{app_is, bodies_at, declarations_at, application_at, text_at};
ghost use Rattle.rt_parse.specs.Inside.DeclarationView.{declared_view, head_view, options_view, owner_view};
ghost use Rattle.rt_parse.specs.Inside.DeclarationView.{items_of};

use crate::declaration::{
    Head, first_declaration, interrupts, locals, monotonic, names, shared_resources,
};
use crate::list::{comma, goes_past, list};
use crate::statement::block;
use crate::stop::Stop;
use crate::tokens::{
    at_most, begins_sign, begins_word, fault_found, limited_name, limited_word, name, number,
    number_within, sign, word,
};
use rt_ast::{
    AppTree, BodyTree, Ident, IrqTree, ListedTree, LocalTree, MonoTree, Number, SharedTree, Stmt,
    TaskTree,
};
use rt_ids::Limit;
use rt_ids::limits::{ARGUMENTS, CAPACITY, NESTING, STATEMENTS, TASKS};
use rt_lex::Tokens;
use std::alloc::Global;

/// Whose body it is.
#[derive(Clone, Copy)]
pub(crate) enum Owner {
    Init,
    Idle,
    Task,
}

impl Owner {
    fn is_task(self) -> bool
        ensures { result ≡ is_task (owner_view self) }
    {
        matches!(self, Owner::Task)
    }

    fn is_init(self) -> bool
        ensures { result ≡ is_init (owner_view self) }
    {
        matches!(self, Owner::Init)
    }
}

/// The options of a body that were read so far.
#[derive(Drop)]
struct BodyOptions {
    binds: Option<Ident>,
    priority: Option<Number>,
    capacity: Option<u32>,
    shared: Option<Vec<ListedTree>>,
    local: Option<Vec<Ident>>,
}

/// A body's options, before any was read.
fn no_options() -> BodyOptions
    ensures { options_view result ≡ no_options }
{
    BodyOptions {
        binds: None,
        priority: None,
        capacity: None,
        shared: None,
        local: None,
    }
}

/// The interrupt that a task is bound to, added to the options so far.
#[tactic(auto, unfolding(crate::specs::Inside::ReadingOptions::binds_at))]
fn binds<'a>(
    alloc: Global,
    tokens: Tokens<'a>,
    options: BodyOptions,
) -> Result<(BodyOptions, Tokens<'a>), Stop>
    ensures { GivesRead (λ x. (options_view x.0, x.1)) result (binds_at (options_view options) tokens.entry) }
{
    let (_, tokens) = word(tokens, b"binds")?;
    let (_, tokens) = sign(tokens, b"=")?;
    let (irq, tokens) = name(alloc, tokens)?;
    let binds = Some(irq);
    Ok((BodyOptions { binds, ..options }, tokens))
}

/// The priority of a task, added to the options so far.
#[tactic(auto, unfolding(crate::specs::Inside::ReadingOptions::priority_at))]
fn priority<'a>(tokens: Tokens<'a>, options: BodyOptions) -> Result<(BodyOptions, Tokens<'a>), Stop>
    ensures { GivesRead (λ x. (options_view x.0, x.1)) result (priority_at (options_view options) tokens.entry) }
{
    let (_, tokens) = word(tokens, b"priority")?;
    let (_, tokens) = sign(tokens, b"=")?;
    let (number, tokens) = number(tokens)?;
    let priority = Some(number);
    Ok((
        BodyOptions {
            priority,
            ..options
        },
        tokens,
    ))
}

/// The capacity of a task, added to the options so far.
#[tactic(auto, unfolding(crate::specs::Inside::ReadingOptions::capacity_at))]
fn capacity<'a>(tokens: Tokens<'a>, options: BodyOptions) -> Result<(BodyOptions, Tokens<'a>), Stop>
    ensures { GivesRead (λ x. (options_view x.0, x.1)) result (capacity_at (options_view options) tokens.entry) }
{
    let (_, tokens) = word(tokens, b"capacity")?;
    let (_, tokens) = sign(tokens, b"=")?;
    let (number, tokens) = number_within(tokens, 1, CAPACITY, Limit::Capacity)?;
    let capacity = Some(number.value);
    Ok((
        BodyOptions {
            capacity,
            ..options
        },
        tokens,
    ))
}

/// The shared resources that a body lists, added to the options so far.
#[tactic(auto, unfolding(crate::specs::Inside::ReadingOptions::shared_list_at))]
fn shared_list<'a>(
    alloc: Global,
    tokens: Tokens<'a>,
    options: BodyOptions,
) -> Result<(BodyOptions, Tokens<'a>), Stop>
    ensures { GivesRead (λ x. (options_view x.0, x.1)) result (shared_list_at (options_view options) tokens.entry) }
{
    let (_, tokens) = word(tokens, b"shared")?;
    let (_, tokens) = sign(tokens, b"=")?;
    let (_, tokens) = sign(tokens, b"[")?;
    let (listed, tokens) = list(alloc, tokens, b"]")?;
    let shared = Some(listed);
    Ok((BodyOptions { shared, ..options }, tokens))
}

/// The local resources that a body lists, added to the options so far.
#[tactic(auto, unfolding(crate::specs::Inside::ReadingOptions::local_list_at))]
fn local_list<'a>(
    alloc: Global,
    tokens: Tokens<'a>,
    options: BodyOptions,
) -> Result<(BodyOptions, Tokens<'a>), Stop>
    ensures { GivesRead (λ x. (options_view x.0, x.1)) result (local_list_at (options_view options) tokens.entry) }
{
    let (_, tokens) = word(tokens, b"local")?;
    let (_, tokens) = sign(tokens, b"=")?;
    let (listed, tokens) = names(alloc, tokens)?;
    let local = Some(listed);
    Ok((BodyOptions { local, ..options }, tokens))
}

impl BodyOptions {
    /// Whether `binds` may still come here.
    fn may_have_binds(&self, owner: Owner) -> bool
        ensures { result ≡ is_task (owner_view owner) && is_none (options_view self.now).binds }
    {
        owner.is_task() && self.binds.is_none()
    }

    /// Whether `priority` may still come here.
    fn may_have_priority(&self, owner: Owner) -> bool
        ensures { result ≡ is_task (owner_view owner) && is_none (options_view self.now).priority }
    {
        owner.is_task() && self.priority.is_none()
    }

    /// Whether `capacity` may still come here.
    fn may_have_capacity(&self, owner: Owner) -> bool
        ensures { result ≡ is_task (owner_view owner) && is_none (options_view self.now).capacity }
    {
        owner.is_task() && self.capacity.is_none()
    }

    /// Whether `shared` may still come here.
    #[tactic(auto, using(crate::proofs::Options::is_none_items))]
    fn may_list_shared(&self, owner: Owner) -> bool
        ensures { result ≡ not (is_init (owner_view owner)) && is_none (options_view self.now).shared }
    {
        !owner.is_init() && self.shared.is_none()
    }

    /// Whether `local` may still come here.
    #[tactic(auto, using(crate::proofs::Options::is_none_items))]
    fn may_list_local(&self) -> bool
        ensures { result ≡ is_none (options_view self.now).local }
    {
        self.local.is_none()
    }
}

/// Whether an option may come here, and comes next.
fn takes(tokens: &Tokens<'_>, allowed: bool, option: &[u8]) -> bool
    ensures { result ≡ begins_with (option_comes allowed option.now) tokens.now }
{
    match tokens.peek() {
        Some(token) => allowed && token.is_word(option),
        None => false,
    }
}

/// One more option. Each comes at most once.
#[tactic(auto, unfolding(crate::specs::Inside::ReadingOptions::option_at))]
fn option<'a>(
    alloc: Global,
    tokens: Tokens<'a>,
    owner: Owner,
    options: BodyOptions,
) -> Result<(BodyOptions, Tokens<'a>), Stop>
    ensures { GivesRead (λ x. (options_view x.0, x.1)) result
        (option_at (owner_view owner) (options_view options) tokens.entry) }
{
    if takes(&tokens, options.may_have_binds(owner), b"binds") {
        binds(alloc, tokens, options)
    } else if takes(&tokens, options.may_have_priority(owner), b"priority") {
        priority(tokens, options)
    } else if takes(&tokens, options.may_have_capacity(owner), b"capacity") {
        capacity(tokens, options)
    } else if takes(&tokens, options.may_list_shared(owner), b"shared") {
        shared_list(alloc, tokens, options)
    } else if takes(&tokens, options.may_list_local(), b"local") {
        local_list(alloc, tokens, options)
    } else {
        Err(Stop::At(fault_found(&tokens)))
    }
}

/// The options up to the parenthesis that closes them.
fn option_list<'a>(
    alloc: Global,
    tokens: Tokens<'a>,
    owner: Owner,
) -> Result<(BodyOptions, Tokens<'a>), Stop>
    ensures { GivesRead (λ x. (options_view x.0, x.1)) result
        (items_at (codes ")") (option_at (owner_view owner)) (length tokens.entry) no_options tokens.entry) }
{
    let mut options = no_options();
    let mut rest = tokens;
    while goes_past(&rest, b")") {
        let (more, behind) = option(alloc, rest, owner, options)?;
        options = more;
        rest = comma(behind, b")")?;
    }
    let (_, rest) = sign(rest, b")")?;
    Ok((options, rest))
}

/// The options of a body from their parenthesis on.
#[tactic(auto, unfolding(crate::specs::Inside::ReadingOptions::some_options_at))]
fn some_options<'a>(
    alloc: Global,
    tokens: Tokens<'a>,
    owner: Owner,
) -> Result<(BodyOptions, Tokens<'a>), Stop>
    ensures { GivesRead (λ x. (options_view x.0, x.1)) result (some_options_at (owner_view owner) tokens.entry) }
{
    let (_, tokens) = sign(tokens, b"(")?;
    option_list(alloc, tokens, owner)
}

/// The options of a body, where there are any.
#[tactic(auto, unfolding(crate::specs::Inside::ReadingOptions::options_at))]
fn options<'a>(
    alloc: Global,
    tokens: Tokens<'a>,
    owner: Owner,
) -> Result<(BodyOptions, Tokens<'a>), Stop>
    ensures { GivesRead (λ x. (options_view x.0, x.1)) result (options_at (owner_view owner) tokens.entry) }
{
    if begins_sign(&tokens, b"(") {
        some_options(alloc, tokens, owner)
    } else {
        Ok((no_options(), tokens))
    }
}

/// The items of a list, or none.
fn or_empty<T: Drop>(alloc: Global, list: Option<Vec<T>>) -> Vec<T>
    ensures { result.items ≡ or_empty (items_of list) }
{
    match list {
        Some(items) => items,
        None => Vec::new(alloc),
    }
}

/// The body of `init` or `idle` from its word on.
#[tactic(auto, unfolding(crate::specs::Inside::ReadingBodies::thread_at))]
fn thread<'a>(
    alloc: Global,
    tokens: Tokens<'a>,
    owner: Owner,
    text: &[u8],
) -> Result<(Option<BodyTree>, Tokens<'a>), Stop>
    ensures { GivesRead (λ x. (option_map body_of x.0, x.1)) result (thread_at
        (owner_view owner) text.now tokens.entry) }
{
    let (at, tokens) = word(tokens, text)?;
    let (options, tokens) = options(alloc, tokens, owner)?;
    let ((block, _), tokens) = block(alloc, tokens, NESTING, STATEMENTS as u32)?;
    let body = BodyTree {
        shared: or_empty(alloc, options.shared),
        local: or_empty(alloc, options.local),
        block,
        at,
    };
    Ok((Some(body), tokens))
}

/// The body of `init` or `idle`, where there is one.
#[tactic(auto, unfolding(crate::specs::Inside::ReadingBodies::thread_body_at))]
fn thread_body<'a>(
    alloc: Global,
    tokens: Tokens<'a>,
    owner: Owner,
    text: &[u8],
) -> Result<(Option<BodyTree>, Tokens<'a>), Stop>
    ensures { GivesRead (λ x. (option_map body_of x.0, x.1)) result
        (thread_body_at (owner_view owner) text.now tokens.entry) }
{
    if begins_word(&tokens, text) {
        thread(alloc, tokens, owner, text)
    } else {
        Ok((None, tokens))
    }
}

/// One more argument, after so many others.
#[tactic(auto, unfolding(crate::specs::Inside::ReadingBodies::one_argument_at))]
fn argument<'a>(
    alloc: Global,
    tokens: Tokens<'a>,
    before: usize,
) -> Result<(Ident, Tokens<'a>), Stop>
    ensures { GivesRead (λ x. x) result (one_argument_at before tokens.entry) }
{
    let (_, tokens) = sign(tokens, b",")?;
    let limit = at_most(ARGUMENTS, Limit::Arguments, before);
    limited_name(alloc, tokens, limit)
}

/// The arguments of a task, of which the first was read.
fn more_arguments<'a>(
    alloc: Global,
    tokens: Tokens<'a>,
    first: Ident,
) -> Result<(Vec<Ident>, Tokens<'a>), Stop>
    ensures { GivesRead (λ x. (x.0.items, x.1)) result
        (repeat_at (is_this_sign (codes ",")) argument_at (length tokens.entry) (first ∷ []) tokens.entry) }
{
    let mut arguments = Vec::new(alloc);
    arguments.push(first)?;
    let mut rest = tokens;
    while begins_sign(&rest, b",") {
        let (one, behind) = argument(alloc, rest, arguments.len())?;
        arguments.push(one)?;
        rest = behind;
    }
    Ok((arguments, rest))
}

/// The arguments of a task from `with` on.
#[tactic(auto, unfolding(crate::specs::Inside::ReadingBodies::parameters_at))]
fn parameters<'a>(alloc: Global, tokens: Tokens<'a>) -> Result<(Vec<Ident>, Tokens<'a>), Stop>
    ensures { GivesRead (λ x. (x.0.items, x.1)) result (parameters_at tokens.entry) }
{
    let (_, tokens) = word(tokens, b"with")?;
    let (first, tokens) = name(alloc, tokens)?;
    more_arguments(alloc, tokens, first)
}

/// The arguments of a task, where there are any.
#[tactic(auto, unfolding(crate::specs::Inside::ReadingBodies::task_arguments_at))]
fn task_arguments<'a>(alloc: Global, tokens: Tokens<'a>) -> Result<(Vec<Ident>, Tokens<'a>), Stop>
    ensures { GivesRead (λ x. (x.0.items, x.1)) result (task_arguments_at tokens.entry) }
{
    if begins_word(&tokens, b"with") {
        parameters(alloc, tokens)
    } else {
        Ok((Vec::new(alloc), tokens))
    }
}

/// The tree of a task, from what was read of it.
fn task_tree(
    alloc: Global,
    name: Ident,
    options: BodyOptions,
    args: Vec<Ident>,
    block: Vec<Stmt>,
) -> TaskTree
    ensures { task_of result ≡ task_is name (options_view options) args.items (block_of block.items) }
{
    let body = BodyTree {
        shared: or_empty(alloc, options.shared),
        local: or_empty(alloc, options.local),
        block,
        at: name.at,
    };
    TaskTree {
        name,
        binds: options.binds,
        priority: options.priority,
        capacity: options.capacity,
        args,
        body,
    }
}

/// A task's arguments and its block, after its options.
fn task_block<'a>(
    alloc: Global,
    tokens: Tokens<'a>,
    name: Ident,
    options: BodyOptions,
) -> Result<(TaskTree, Tokens<'a>), Stop>
    ensures { GivesRead (λ x. (task_of x.0, x.1)) result (task_block_at name (options_view options) tokens.entry) }
{
    let (args, tokens) = task_arguments(alloc, tokens)?;
    let ((block, _), tokens) = block(alloc, tokens, NESTING, STATEMENTS as u32)?;
    Ok((task_tree(alloc, name, options, args, block), tokens))
}

/// One more task, after so many others.
#[tactic(auto, unfolding(crate::specs::Inside::ReadingBodies::task_at))]
fn task<'a>(
    alloc: Global,
    tokens: Tokens<'a>,
    before: usize,
) -> Result<(TaskTree, Tokens<'a>), Stop>
    ensures { GivesRead (λ x. (task_of x.0, x.1)) result (task_at before tokens.entry) }
{
    let limit = at_most(TASKS, Limit::Tasks, before);
    let (_, tokens) = limited_word(tokens, b"task", limit)?;
    let (name, tokens) = name(alloc, tokens)?;
    let (options, tokens) = options(alloc, tokens, Owner::Task)?;
    task_block(alloc, tokens, name, options)
}

/// The tasks.
fn tasks<'a>(alloc: Global, tokens: Tokens<'a>) -> Result<(Vec<TaskTree>, Tokens<'a>), Stop>
    ensures { GivesRead (λ x. (map task_of x.0.items, x.1)) result
        (repeat_at (is_this_word (codes "task")) (adds_at task_at) (length tokens.entry) [] tokens.entry) }
{
    let mut tasks = Vec::new(alloc);
    let mut rest = tokens;
    while begins_word(&rest, b"task") {
        let (one, behind) = task(alloc, rest, tasks.len())?;
        tasks.push(one)?;
        rest = behind;
    }
    Ok((tasks, rest))
}

/// What is declared before the bodies.
#[derive(Drop)]
struct Declared {
    first: Head,
    irqs: Vec<IrqTree>,
    mono: Option<MonoTree>,
    shared: Vec<SharedTree>,
    locals: Vec<LocalTree>,
}

/// An application's tree.
fn app_tree(
    declared: Declared,
    init: Option<BodyTree>,
    idle: Option<BodyTree>,
    tasks: Vec<TaskTree>,
) -> AppTree
    ensures { app_of result ≡ app_is (declared_view declared) (option_map body_of init) (option_map body_of idle)
        (map task_of tasks.items) }
{
    let Declared {
        first,
        irqs,
        mono,
        shared,
        locals,
    } = declared;
    AppTree {
        name: first.name,
        bits: first.bits,
        fpu: first.fpu,
        dispatchers: first.dispatchers,
        irqs,
        mono,
        shared,
        locals,
        init,
        idle,
        tasks,
    }
}

/// The bodies of an application, after what it declares.
fn bodies<'a>(
    alloc: Global,
    tokens: Tokens<'a>,
    declared: Declared,
) -> Result<(AppTree, Tokens<'a>), Stop>
    ensures { GivesRead (λ x. (app_of x.0, x.1)) result (bodies_at (declared_view declared) tokens.entry) }
{
    let (init, tokens) = thread_body(alloc, tokens, Owner::Init, b"init")?;
    let (idle, tokens) = thread_body(alloc, tokens, Owner::Idle, b"idle")?;
    let (tasks, tokens) = tasks(alloc, tokens)?;
    Ok((app_tree(declared, init, idle, tasks), tokens))
}

/// An application after its first declaration.
fn declarations<'a>(
    alloc: Global,
    tokens: Tokens<'a>,
    first: Head,
) -> Result<(AppTree, Tokens<'a>), Stop>
    ensures { GivesRead (λ x. (app_of x.0, x.1)) result (declarations_at (head_view first) tokens.entry) }
{
    let (irqs, tokens) = interrupts(alloc, tokens)?;
    let (mono, tokens) = monotonic(alloc, tokens)?;
    let (shared, tokens) = shared_resources(alloc, tokens)?;
    let (locals, tokens) = locals(alloc, tokens)?;
    let declared = Declared {
        first,
        irqs,
        mono,
        shared,
        locals,
    };
    bodies(alloc, tokens, declared)
}

/// A whole application.
#[tactic(auto, unfolding(crate::specs::Inside::ReadingDeclaration::application_at))]
fn application<'a>(alloc: Global, tokens: Tokens<'a>) -> Result<(AppTree, Tokens<'a>), Stop>
    ensures { GivesRead (λ x. (app_of x.0, x.1)) result (application_at tokens.entry) }
{
    let (first, tokens) = first_declaration(alloc, tokens)?;
    declarations(alloc, tokens, first)
}

/// An application, and nothing after it.
#[tactic(auto, unfolding(crate::specs::Inside::ReadingDeclaration::text_at))]
pub(crate) fn whole(alloc: Global, tokens: Tokens<'_>) -> Result<AppTree, Stop>
    ensures { GivesRead app_of result (text_at tokens.entry) }
{
    let (app, tokens) = application(alloc, tokens)?;
    match tokens.peek() {
        None => Ok(app),
        Some(_) => Err(Stop::At(fault_found(&tokens))),
    }
}
