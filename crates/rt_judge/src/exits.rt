// Where an instruction leads to.

ghost use Rattle.std.specs.Prelude.{◌≡◌, ◌+◌, ◌<◌, ◌^◌, slice_get};
ghost use Rattle.rt_judge.specs.Inside.Exits.{exit_list, targets, ends_init};

use rt_code::{Image, Instr, Line};
use rt_points::Owner;

/// The addresses that an instruction leads to.
#[derive(Clone, Copy)]
pub enum Exits {
    /// It calls or returns.
    Nowhere,
    /// To the next address, to its own or to that of a jump.
    One(u32),
    /// To the next address, and to that of a jump.
    Two(u32, u32),
}

/// Where an instruction at an address leads to.
pub fn exits_of(instr: &Instr, at: u32) -> Exits
    requires { at + 1 < 2 ^ 32 }
    ensures { exit_list result ≡ targets instr.now at }
{
    match *instr {
        Instr::Jump(to) => Exits::One(to),
        Instr::JumpZ(_, to) => Exits::Two(at + 1, to),
        Instr::Wait => Exits::One(at),
        Instr::Call(_, _) | Instr::Back | Instr::Ret => Exits::Nowhere,
        _ => Exits::One(at + 1),
    }
}

/// Whether an instruction ends `init`, so that the thread goes on.
pub fn ends_init(instr: &Instr, owner: Owner) -> bool
    ensures { result ≡ ends_init instr.now owner }
{
    matches!(instr, Instr::Serve) && matches!(owner, Owner::Starting)
}

/// The line at an address.
pub fn line_at(image: &Image, address: u32) -> Option<Line>
    ensures { result ≡ slice_get image.now.code address }
{
    match image.code.get(address as usize) {
        Some(line) => Some(*line),
        None => None,
    }
}
