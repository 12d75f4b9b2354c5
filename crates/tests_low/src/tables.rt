//! The gate lists of Toffoli and Fredkin.
use sc_base::GateName;
use sc_gate::{Kind, Times, Wire, arity, slow_critical};
use sc_tables::{fredkin, toffoli};

#[test]
fn the_toffoli_list(rt: HostRuntime) {
    let gates = toffoli(Wire::qubit(0), Wire::qubit(1), Wire::qubit(2));
    for (duration, weight) in [(1, 11), (10, 47)] {
        let mut times = Times::ones();
        times.set(GateName::T, duration);
        times.set(GateName::Tdag, duration);
        assert_eq!(rt; slow_critical(&gates, &times), weight);
    }
    assert_eq!(rt; gates[12].kind, Kind::Tdag);
    assert_eq!(rt; gates[12].a, Wire::qubit(1));
}

#[test]
fn the_fredkin_list(rt: HostRuntime) {
    let gates = fredkin(Wire::qubit(0), Wire::qubit(1), Wire::qubit(2));
    assert_eq!(rt; gates[0], gates[16]);
    assert_eq!(rt; gates[0].b, Some(Wire::qubit(1)));
    assert_eq!(rt; arity(&gates[1].kind), 1);
}
