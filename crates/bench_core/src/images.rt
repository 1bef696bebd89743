// Images whose code spins.

use rt_code::{Handler, Image, Instr, IrqRow, Line};
use rt_ids::{Irq, Name, Names, NoMemory, Op};
use std::alloc::Global;

/// The words of each frame.
const FRAME: u32 = 4;

/// The thread spins: it adds, and jumps back.
const THREAD: [Instr; 5] = [
    Instr::Set(0, 1),
    Instr::Serve,
    Instr::Calc(Op::Add, 1, 1, 0),
    Instr::Calc(Op::Xor, 2, 2, 1),
    Instr::Jump(2),
];

/// The thread waits, and the handler of the third address does arithmetic, shows a value, and jumps back.
const HANDLER: [Instr; 11] = [
    Instr::Serve,
    Instr::Wait,
    Instr::Set(0, 1),
    Instr::Calc(Op::Add, 1, 1, 0),
    Instr::Calc(Op::Mul, 2, 1, 1),
    Instr::Calc(Op::Xor, 3, 3, 2),
    Instr::Calc(Op::Shl, 2, 3, 0),
    Instr::Calc(Op::Sub, 3, 2, 3),
    Instr::Calc(Op::Rem, 2, 3, 1),
    Instr::Emit(3),
    Instr::Jump(3),
];

/// The declared interrupts of an image.
#[derive(Clone, Copy)]
pub struct Irqs {
    /// How many are declared, from the number 0 on.
    pub count: u16,
    /// Whether the one of the number 1 is not enabled; all others are.
    pub is_second_off: bool,
}

/// The row of an interrupt, which the third address handles where it is enabled.
fn row(alloc: Global, number: Irq, is_enabled: bool) -> Result<IrqRow, NoMemory> {
    let name = Name::of(alloc, b"TIMER")?;
    let handler = Handler {
        value: 16,
        entry: 2,
        frame: FRAME,
    };
    Ok(IrqRow {
        name,
        number,
        handler: is_enabled.then_some(handler),
    })
}

/// The rows of declared interrupts.
fn rows(alloc: Global, irqs: Irqs) -> Result<Vec<IrqRow>, NoMemory> {
    let mut rows = Vec::new(alloc);
    for index in 0..irqs.count {
        if let Some(number) = Irq::new(index) {
            let is_off = index == 1 && irqs.is_second_off;
            rows.push(row(alloc, number, !is_off)?)?;
        }
    }
    Ok(rows)
}

/// Instructions without notes.
fn lines(alloc: Global, code: &[Instr]) -> Result<Vec<Line>, NoMemory> {
    let mut lines = Vec::new(alloc);
    for instr in code {
        lines.push((*instr, None))?;
    }
    Ok(lines)
}

/// An image of this code with these declared interrupts.
fn image(alloc: Global, irqs: Irqs, code: &[Instr]) -> Result<Image, NoMemory> {
    let irqs = rows(alloc, irqs)?;
    let code = lines(alloc, code)?;
    Ok(Image {
        bits: 4,
        fpu: false,
        stack_bytes: 64,
        thread_words: FRAME,
        cells: Vec::new(alloc),
        irqs,
        bodies: Vec::new(alloc),
        code,
        names: Names::new(alloc),
    })
}

/// The image whose thread spins.
pub fn thread(alloc: Global, irqs: Irqs) -> Result<Image, NoMemory> {
    image(alloc, irqs, &THREAD)
}

/// The image whose handler of the interrupt 0 spins.
pub fn handler(alloc: Global, irqs: Irqs) -> Result<Image, NoMemory> {
    image(alloc, irqs, &HANDLER)
}
