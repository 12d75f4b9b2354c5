//! The line that begins a module: its number and its signature.
ghost use Rattle.std.specs.Prelude.{◌≡◌, ◌∷◌, [], ◌++◌, ◌≤◌, false, length, map, flat_map, codes, decimal, OnOk};
ghost use Rattle.std.specs.List.{join_with_byte};
ghost use Rattle.sc_base.specs.Causes.{HasCause};
ghost use Rattle.sc_gate.specs.Lines.{class_letter};
ghost use Rattle.sc_deck.specs.Hierarchical.{arg_text, signature};
ghost use Rattle.sc_hier.specs.Gathering.{Gathers, GathersPrefix};

use crate::gathered::Gathered;
use sc_base::{Class, LineBuffer, Sink, WriteFault};
use sc_deck::{Arg, Key};

fn letter(class: Class) -> &'static [u8]
    ensures { result.now ≡ class_letter class ∷ [] }
{
    match class {
        Class::Q => b"q",
        Class::C => b"c",
    }
}

/// The text of an argument behind one byte.
fn arg_after(mark: &[u8], arg: &Arg) -> LineBuffer
    requires { length mark.now ≤ 1 }
    ensures { result ≡ mark.now ++ arg_text arg.now }
{
    let mut line = LineBuffer::new();
    line.push(mark);
    match *arg {
        Arg::Int(value) => line.push_i64(value),
        Arg::Double(value) => line.push_fixed(value),
        Arg::One(class) => line.push(letter(class)),
        Arg::Many(class, count) => {
            line.push(letter(class));
            line.push(b"[");
            line.push_number(count);
            line.push(b"]");
        }
    }
    line
}

/// Appends arguments, each behind a comma.
fn push_more_args<O: Sink>(args: &[Arg], held: &mut Gathered, out: &mut O) -> Result<(), WriteFault>
    requires open { O.is_ended out.old ≡ false }
    ensures open { O.is_ended out.new ≡ false }
    ensures gathered { OnOk result (Gathers O.tells O.bytes out.old out.new held.old held.new (flat_map (λ arg. 44 ∷ arg_text arg) args.now)) }
    ensures prefix { GathersPrefix O.tells O.bytes out.old out.new held.old (flat_map (λ arg. 44 ∷ arg_text arg) args.now) }
    ensures cause { HasCause (O.faults out.old) (O.faults out.new) result }
{
    for arg in args {
        held.push(arg_after(b",", arg).as_bytes(), out)?;
    }
    Ok(())
}

/// Appends the arguments, joined by commas.
fn push_args<O: Sink>(args: &[Arg], held: &mut Gathered, out: &mut O) -> Result<(), WriteFault>
    requires open { O.is_ended out.old ≡ false }
    ensures open { O.is_ended out.new ≡ false }
    ensures gathered { OnOk result (Gathers O.tells O.bytes out.old out.new held.old held.new (join_with_byte 44 (map arg_text args.now))) }
    ensures prefix { GathersPrefix O.tells O.bytes out.old out.new held.old (join_with_byte 44 (map arg_text args.now)) }
    ensures cause { HasCause (O.faults out.old) (O.faults out.new) result }
{
    let Some((first, rest)) = args.split_first() else {
        return Ok(());
    };
    held.push(arg_after(b"", first).as_bytes(), out)?;
    push_more_args(rest, held, out)?;
    Ok(())
}

/// `module`, the number, and a space.
fn module_word(number: u32) -> LineBuffer
    ensures { result ≡ codes "module " ++ decimal number ++ codes " " }
{
    let mut line = LineBuffer::new();
    line.push(b"module ");
    line.push_number(number);
    line.push(b" ");
    line
}

/// Appends the name, and the arguments in parentheses.
fn push_signature<O: Sink>(key: &Key, held: &mut Gathered, out: &mut O) -> Result<(), WriteFault>
    requires open { O.is_ended out.old ≡ false }
    ensures open { O.is_ended out.new ≡ false }
    ensures gathered { OnOk result (Gathers O.tells O.bytes out.old out.new held.old held.new (signature key.now)) }
    ensures prefix { GathersPrefix O.tells O.bytes out.old out.new held.old (signature key.now) }
    ensures cause { HasCause (O.faults out.old) (O.faults out.new) result }
{
    held.push(key.name.as_bytes(), out)?;
    held.push(b"(", out)?;
    push_args(key.args.as_slice(), held, out)?;
    held.push(b")", out)?;
    Ok(())
}

/// Appends the line that begins the module of this number.
pub fn push_heading<O: Sink>(
    number: u32,
    key: &Key,
    held: &mut Gathered,
    out: &mut O,
) -> Result<(), WriteFault>
    requires open { O.is_ended out.old ≡ false }
    ensures open { O.is_ended out.new ≡ false }
    ensures gathered { OnOk result (Gathers O.tells O.bytes out.old out.new held.old held.new (codes "module " ++ decimal number ++ codes " " ++ signature key.now ++ codes "\n")) }
    ensures prefix { GathersPrefix O.tells O.bytes out.old out.new held.old (codes "module " ++ decimal number ++ codes " " ++ signature key.now ++ codes "\n") }
    ensures cause { HasCause (O.faults out.old) (O.faults out.new) result }
{
    held.push(module_word(number).as_bytes(), out)?;
    push_signature(key, held, out)?;
    held.push(b"\n", out)?;
    Ok(())
}
