//! Gates on qubits of given numbers.
use sc_base::Class;
use sc_gate::{Gate, Kind, Wire};

pub fn qubit(number: u32) -> Wire {
    Wire {
        class: Class::Q,
        number,
    }
}

pub fn single(kind: Kind, number: u32) -> Gate {
    Gate {
        kind,
        a: qubit(number),
        b: None,
        c: None,
    }
}

pub fn cnot(control: u32, target: u32) -> Gate {
    Gate {
        kind: Kind::Cnot,
        a: qubit(control),
        b: Some(qubit(target)),
        c: None,
    }
}
