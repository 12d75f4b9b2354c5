//! What the types of numbers say of their ranges.
ghost use Rattle.std.specs.Prelude.{All, FitsSigned};
ghost use Rattle.std.specs.Int.{w64};
ghost use Rattle.sc_gate.specs.SameGates.{value_of};
ghost use Rattle.sc_deck.specs.Keys.{ArgInRange};

use crate::Arg;
use sc_base::Fixed;
use sc_gate::Kind;

/// Tells that an angle is in range.
pub(crate) fn kind_has_range(kind: Kind)
    ensures { FitsSigned w64 (value_of kind) }
{
    match kind {
        Kind::Rx(angle) => fixed_has_range(angle),
        Kind::Ry(angle) => fixed_has_range(angle),
        Kind::Rz(angle) => fixed_has_range(angle),
        _ => {}
    }
}

fn fixed_has_range(value: Fixed)
    ensures { FitsSigned w64 value.0 }
{
    let _ = value.0;
}

/// Tells that the numbers among arguments are in range.
pub(crate) fn args_have_ranges(args: &[Arg])
    ensures { All ArgInRange args.now }
{
    for arg in args {
        arg_has_range(*arg);
    }
}

fn arg_has_range(arg: Arg)
    ensures { ArgInRange arg }
{
    match arg {
        Arg::Int(value) => {
            let _ = value;
        }
        Arg::Double(value) => fixed_has_range(value),
        Arg::One(_) | Arg::Many(..) => {}
    }
}
