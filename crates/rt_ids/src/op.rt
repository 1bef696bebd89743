// The binary operations on numbers of 32 bits.

ghost use Rattle.std.specs.Prelude.{◌≡◌};
ghost use Rattle.rt_ids.specs.Operation.{operate};

/// A binary operation on two numbers of 32 bits. Sums, differences and products wrap.
#[derive(Clone, Copy, Debug, PartialEq, Eq)]
pub enum Op {
    Add,
    Sub,
    Mul,
    Div,
    Rem,
    And,
    Or,
    Xor,
    Shl,
    Shr,
    Eq,
    Ne,
    Lt,
    Le,
    Gt,
    Ge,
}

impl Op {
    /// What the operation gives. A quotient by 0 is 0, and the rest of a division by 0 is the dividend; a shift by 32
    /// or more gives 0; a comparison gives 1 where it holds, and else 0.
    pub fn apply(self, a: u32, b: u32) -> u32
        ensures { result ≡ operate self a b }
    {
        match self {
            Op::Add => a.wrapping_add(b),
            Op::Sub => a.wrapping_sub(b),
            Op::Mul => a.wrapping_mul(b),
            Op::Div => if b == 0 { 0 } else { a / b },
            Op::Rem => if b == 0 { a } else { a % b },
            Op::And => a & b,
            Op::Or => a | b,
            Op::Xor => a ^ b,
            Op::Shl => if b < 32 { a << b } else { 0 },
            Op::Shr => if b < 32 { a >> b } else { 0 },
            Op::Eq => u32::from(a == b),
            Op::Ne => u32::from(a != b),
            Op::Lt => u32::from(a < b),
            Op::Le => u32::from(a <= b),
            Op::Gt => u32::from(a > b),
            Op::Ge => u32::from(a >= b),
        }
    }
}
