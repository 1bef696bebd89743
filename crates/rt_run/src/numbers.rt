// Whether the numbers of an item fit their types.

ghost use Rattle.std.specs.Prelude.{◌<◌, ◌^◌};
ghost use Rattle.rt_lines.specs.Operand.{HasLevel};
ghost use Rattle.rt_run.specs.Numbers.{HasNumbers};

use rt_ids::Section;
use rt_trace::What;

/// Every number of an item is in the range of its type. It does nothing; its contract says so to proofs.
pub fn numbers_fit(what: &What)
    ensures { HasNumbers what.now }
{
    match what {
        What::Emit(value) | What::Clock(value) => word_fits(*value),
        What::Take(_, depth) => word_fits(*depth),
        What::Enter(section) => level_fits(*section),
        What::Leave(section, None) => level_fits(*section),
        What::Leave(section, Some(value)) => {
            level_fits(*section);
            word_fits(*value);
        }
        What::Start(_, args) => {
            let _values = args.values();
        }
        What::Arm(_, instant) => word_fits(*instant),
        What::Cancel(_, handle) => word_fits(*handle),
        What::Move(_, handle, instant) => {
            word_fits(*handle);
            word_fits(*instant);
        }
        What::Trap(reason) => byte_fits(*reason),
        _ => {}
    }
}

fn word_fits(_number: u32)
    ensures { _number < 2 ^ 32 }
{}

fn byte_fits(_number: u8)
    ensures { _number < 2 ^ 8 }
{}

fn level_fits(section: Section)
    ensures { HasLevel section }
{
    if let Section::Ready(level) = section {
        byte_fits(level.0);
    }
}
