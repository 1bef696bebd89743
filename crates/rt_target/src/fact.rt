// What a line says of a chip.

ghost use Rattle.std.specs.Prelude.{◌≡◌, ◌≢◌};
ghost use Rattle.rt_target.specs.Chip as spec;

use rt_ids::Irq;

/// What a line says of a chip. Addresses and sizes are in bytes.
#[derive(Clone, Copy, Debug, PartialEq, Eq)]
pub enum Fact {
    /// Flash begins at an address, and has so many bytes.
    Flash(u32, u32),
    /// RAM begins at an address, and has so many bytes.
    Ram(u32, u32),
    /// The word that `emit` writes has this address.
    Port(u32),
    /// A tick is one cycle more than this number.
    Tick(u32),
    /// The core implements so many priority bits.
    Bits(u32),
    /// The input that is the local resource of this index is read from an address.
    Word(u8, u32),
    /// A C function is called first as an interrupt is taken.
    Call(Irq),
}

/// The alignment of flash: a vector table of any core may begin there.
const TABLE: u32 = 1024;
/// The alignment of RAM: the stack pointer may begin there.
const STACK: u32 = 8;
/// The first address behind memory.
const SYSTEM: u64 = 0xE000_0000;
/// The system control space, and the first address behind it.
const CONTROL: u32 = 0xE000_E000;

const BEHIND_CONTROL: u32 = 0xE000_F000;

/// Whether two say the same thing of a chip, in the same words or in others.
pub(crate) fn says_same(fact: &Fact, other: &Fact) -> bool
    ensures { result ≡ spec.says_same fact.now other.now }
{
    match (fact, other) {
        (Fact::Flash(_, _), Fact::Flash(_, _)) => true,
        (Fact::Ram(_, _), Fact::Ram(_, _)) => true,
        (Fact::Port(_), Fact::Port(_)) => true,
        (Fact::Tick(_), Fact::Tick(_)) => true,
        (Fact::Bits(_), Fact::Bits(_)) => true,
        (Fact::Word(local, _), Fact::Word(other, _)) => local == other,
        (Fact::Call(irq), Fact::Call(other)) => irq == other,
        _ => false,
    }
}

/// Whether memory with this alignment begins at the address, and so many bytes end before the system's addresses.
fn is_memory_at(alignment: u32, address: u32, size: u32) -> bool
    requires { alignment ≢ 0 }
    ensures { result ≡ spec.is_memory_at alignment address size }
{
    let end = u64::from(address) + u64::from(size);
    address % alignment == 0 && size > 0 && end <= SYSTEM
}

/// Whether it is the address of a word.
fn is_address(address: u32) -> bool
    ensures { result ≡ spec.is_address address }
{
    address % 4 == 0
}

/// Whether the numbers are those of a chip.
pub(crate) fn is_in_range(fact: &Fact) -> bool
    ensures { result ≡ spec.is_in_range fact.now }
{
    match fact {
        Fact::Flash(address, size) => is_memory_at(TABLE, *address, *size),
        Fact::Ram(address, size) => *address > 0 && is_memory_at(STACK, *address, *size),
        Fact::Port(address) => {
            is_address(*address) && !(CONTROL <= *address && *address < BEHIND_CONTROL)
        }
        Fact::Tick(reload) => 1 <= *reload && *reload < 1 << 24,
        Fact::Bits(bits) => 3 <= *bits && *bits <= 8,
        Fact::Word(_, address) => is_address(*address),
        Fact::Call(_) => true,
    }
}

/// The address at which the bytes of a fact begin, and the first behind them; both 0 where it has none.
fn extent(fact: &Fact) -> (u64, u64)
    ensures begin { result.0 ≡ spec.begin_of fact.now }
    ensures end { result.1 ≡ spec.end_of fact.now }
{
    let (address, size) = match fact {
        Fact::Flash(address, size) | Fact::Ram(address, size) => (*address, *size),
        Fact::Port(address) | Fact::Word(_, address) => (*address, 4),
        _ => (0, 0),
    };
    (u64::from(address), u64::from(address) + u64::from(size))
}

/// Whether it is of memory.
pub(crate) fn is_memory(fact: &Fact) -> bool
    ensures { result ≡ spec.is_memory fact.now }
{
    matches!(fact, Fact::Flash(_, _) | Fact::Ram(_, _))
}

/// Whether a byte is of two, at least one of which is memory.
pub(crate) fn overlap(fact: &Fact, other: &Fact) -> bool
    ensures { result ≡ spec.overlap fact.now other.now }
{
    let (begin, end) = extent(fact);
    let (other_begin, other_end) = extent(other);
    (is_memory(fact) || is_memory(other)) && begin < other_end && other_begin < end
}

/// Whether a core has too few priority bits for an application with so many.
pub(crate) fn has_too_few_bits(bits: u8, fact: &Fact) -> bool
    ensures { result ≡ spec.has_too_few_bits bits fact.now }
{
    match fact {
        Fact::Bits(has) => *has < u32::from(bits),
        _ => false,
    }
}

/// Whether it says where flash lies.
pub fn is_flash(fact: &Fact) -> bool
    ensures { result ≡ spec.is_flash fact.now }
{
    matches!(fact, Fact::Flash(_, _))
}

/// Whether it says where RAM lies.
pub fn is_ram(fact: &Fact) -> bool
    ensures { result ≡ spec.is_ram fact.now }
{
    matches!(fact, Fact::Ram(_, _))
}

/// Whether it says which word `emit` writes.
pub fn is_port(fact: &Fact) -> bool
    ensures { result ≡ spec.is_port fact.now }
{
    matches!(fact, Fact::Port(_))
}

/// Whether it says how long a tick is.
pub fn is_tick(fact: &Fact) -> bool
    ensures { result ≡ spec.is_tick fact.now }
{
    matches!(fact, Fact::Tick(_))
}

/// Whether it says how many priority bits there are.
pub fn is_bits(fact: &Fact) -> bool
    ensures { result ≡ spec.is_bits fact.now }
{
    matches!(fact, Fact::Bits(_))
}
