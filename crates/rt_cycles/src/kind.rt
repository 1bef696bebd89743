// The kinds of instructions, by the words that listings have for them.

ghost use Rattle.std.specs.Prelude.{◌≡◌};
ghost use Rattle.rt_listing.specs.Words.{instr_first};

use rt_code::Instr;
use rt_ids::Op;
use rt_listing::op_word;

/// The operations, in the order of listings.
pub(crate) const OPS: [Op; 16] = [
    Op::Add,
    Op::Sub,
    Op::Mul,
    Op::Div,
    Op::Rem,
    Op::And,
    Op::Or,
    Op::Xor,
    Op::Shl,
    Op::Shr,
    Op::Eq,
    Op::Ne,
    Op::Lt,
    Op::Le,
    Op::Gt,
    Op::Ge,
];

/// The word of an instruction.
pub(crate) fn word_of(instr: Instr) -> &'static [u8]
    ensures { result.now ≡ instr_first instr }
{
    match instr {
        Instr::Set(..) => b"set",
        Instr::Copy(..) => b"copy",
        Instr::Calc(op, ..) => op_word(op),
        Instr::Load(..) => b"load",
        Instr::Store(..) => b"store",
        Instr::LoadAt(..) => b"loadat",
        Instr::StoreAt(..) => b"storeat",
        Instr::Jump(_) => b"jump",
        Instr::JumpZ(..) => b"jumpz",
        Instr::Emit(_) => b"emit",
        Instr::Post(_) => b"post",
        Instr::Clock(_) => b"clock",
        Instr::Alarm(..) => b"alarm",
        Instr::NoAlarm => b"noalarm",
        Instr::Raise(..) => b"raise",
        Instr::Restore(_) => b"restore",
        Instr::Mask(_) => b"mask",
        Instr::Unmask(_) => b"unmask",
        Instr::Mark => b"mark",
        Instr::Serve => b"serve",
        Instr::Wait => b"wait",
        Instr::Call(..) => b"call",
        Instr::Back => b"back",
        Instr::Ret => b"ret",
    }
}
