// Operands put behind a text. Each caller leaves room for them.
ghost use Rattle.std.specs.Prelude.{◌≡◌, ◌∷◌, ◌++◌, ◌+◌, ◌≤◌};
ghost use Rattle.arrayvec.specs.ArrayVec.{array_vec_len};
ghost use Rattle.text.specs.Texts.{decimal};
ghost use Rattle.line_operand.specs.Operands.{spell, piece, sep_after};

use crate::fields::{field, omitted};
use crate::{Kind, Shape};
use arrayvec::ArrayVec;
use text::{put_decimal, put_hex};

// A byte and a number after it: at most eleven bytes.
fn put_marked<const N: usize>(out: &mut ArrayVec<u8, N>, mark: u8, n: u32)
    requires { array_vec_len out.old + 11 ≤ N }
    ensures text { out.new.items ≡ out.old.items ++ mark ∷ decimal n }
    ensures short { array_vec_len out.new ≤ array_vec_len out.old + 11 }
{
    out.push(mark);
    put_decimal(out, n);
}

// A displacement. Every caller's field has eight bits.
#[tactic(auto, unfolding(crate::specs::Operands::spell))]
fn put_label<const N: usize>(out: &mut ArrayVec<u8, N>, f: u16)
    requires { array_vec_len out.old + 11 ≤ N }
    ensures text { out.new.items ≡ out.old.items ++ spell Kind.Label 0 f }
    ensures short { array_vec_len out.new ≤ array_vec_len out.old + 11 }
{
    if f < 128 {
        put_decimal(out, f as u32);
    } else {
        put_marked(out, b'-', 256u32.saturating_sub(f as u32));
    }
}

// The field f of an operand.
#[tactic(auto, unfolding(crate::specs::Operands::spell))]
fn put_field<const N: usize>(out: &mut ArrayVec<u8, N>, k: Kind, low: u8, f: u16)
    requires { array_vec_len out.old + 11 ≤ N }
    ensures text { out.new.items ≡ out.old.items ++ spell k low f }
    ensures short { array_vec_len out.new ≤ array_vec_len out.old + 11 }
{
    let n = low as u32 + f as u32;
    match k {
        Kind::Register | Kind::Index => put_marked(out, b'R', n),
        Kind::Number => put_decimal(out, n),
        Kind::Label => put_label(out, f),
        Kind::Word => put_hex(out, f),
        Kind::Unread => {}
    }
}

// An operand of the instruction n after the separator `sep`, at most twelve bytes; what separates the next one.
#[tactic(auto, unfolding(crate::specs::Operands::piece, crate::specs::Operands::sep_after))]
pub fn put_operand<const N: usize>(out: &mut ArrayVec<u8, N>, sep: u8, s: Shape, n: u64) -> u8
    requires { array_vec_len out.old + 12 ≤ N }
    ensures text { out.new.items ≡ out.old.items ++ piece s sep n }
    ensures next { result ≡ sep_after s sep n }
    ensures short { array_vec_len out.new ≤ array_vec_len out.old + 12 }
{
    let f = field(s.place, n);
    if omitted(s.kind, f) {
        return sep;
    }
    out.push(sep);
    put_field(out, s.kind, s.low, f);
    b','
}
