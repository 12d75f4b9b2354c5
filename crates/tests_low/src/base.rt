//! Lists, texts, shelves, sinks, and numbers as text.
use sc_base::{
    Failed, Fixed, LineBuffer, Lines, List, MemShelf, MemSink, ReadAllFault, Shelf, Sink,
    SureShelf, SureSink, Text, Whole, WriteFault, put_u128, read_all, read_fixed, read_u64,
    take_fixed, take_int, take_number_line, take_text, take_whole, write_all, write_fixed,
    write_parts,
};
use std::test::Fail;

#[test]
fn decimal_literals_are_read(rt: HostRuntime) {
    for (text, units) in [
        (b"1.".as_slice(), Some(1_000_000_000_000)),
        (b".5", Some(500_000_000_000)),
        (b"001.50", Some(1_500_000_000_000)),
        (b"0.1234567890129", Some(123_456_789_012)),
        (b"9223372.0368547758079", Some(i64::MAX)),
        (b"9223372.036854775808", None),
        (b".", None),
    ] {
        assert_eq!(rt; read_fixed(text), units.map(Fixed));
    }
}

#[test]
fn other_texts_are_no_literals(rt: HostRuntime) {
    for text in [b"1".as_slice(), b"1.2.3", b"-1.5", b"", b"1.a"] {
        assert_eq!(rt; read_fixed(text), None);
    }
}

#[test]
fn fixed_point_numbers_are_written(rt: HostRuntime) {
    for (units, text) in [
        (0, b"0.000000000000".as_slice()),
        (3_141_592_653_590, b"3.141592653590"),
        (-500_000_000_000, b"-0.500000000000"),
        (i64::MAX, b"9223372.036854775807"),
        (i64::MIN, b"-9223372.036854775808"),
    ] {
        let mut buf = [0; 24];
        let length = write_fixed(Fixed(units), &mut buf);
        assert_eq!(rt; &buf[..length], text);
        assert_eq!(rt; take_fixed(text), Some((Fixed(units), b"".as_slice())));
    }
}

#[test]
fn other_texts_are_no_fixed_point_numbers(rt: HostRuntime) {
    for text in [
        b"-0.000000000000".as_slice(),
        b"01.000000000000",
        b"1.00000000000",
        b".500000000000",
        b"9223372.036854775808",
        b"+1.000000000000",
        b"",
    ] {
        assert_eq!(rt; take_fixed(text), None);
    }
}

#[test]
fn whole_numbers_are_written(rt: HostRuntime) {
    for (value, text) in [
        (0, b"0".as_slice()),
        (4_194_304, b"4194304"),
        (u128::MAX, b"340282366920938463463374607431768211455"),
    ] {
        let mut buf = [0; 40];
        let length = put_u128(value, &mut buf);
        assert_eq!(rt; &buf[..length], text);
    }
}

#[test]
fn whole_numbers_are_read(rt: HostRuntime) {
    for (text, number) in [
        (b"00018446744073709551615".as_slice(), Some(u64::MAX)),
        (b"18446744073709551616", None),
        (b"12a", None),
        (b"", None),
    ] {
        assert_eq!(rt; read_u64(text), number);
    }
}

#[test]
fn strict_numerals_are_taken(rt: HostRuntime) {
    for (text, answer) in [
        (b"0\n".as_slice(), Some((Whole::Fits(0), b"\n".as_slice()))),
        (b"18446744073709551615", Some((Whole::Fits(u64::MAX), b""))),
        (b"18446744073709551616x", Some((Whole::Past, b"x"))),
        (b"00", None),
        (b"-1", None),
        (b"", None),
    ] {
        assert_eq!(rt; take_whole(text), answer);
    }
}

#[test]
fn numbers_with_a_sign_are_taken(rt: HostRuntime) {
    for (text, answer) in [
        (b"0,".as_slice(), Some((0, b",".as_slice()))),
        (b"9223372036854775807", Some((i64::MAX, b""))),
        (b"-9223372036854775808)", Some((i64::MIN, b")"))),
        (b"9223372036854775808", None),
        (b"-9223372036854775809", None),
        (b"-0", None),
        (b"+1", None),
        (b"-01", None),
    ] {
        assert_eq!(rt; take_int(text), answer);
    }
}

#[test]
fn lines_of_numbers_are_taken(rt: HostRuntime) {
    let text = b"qbits 70\nend";
    assert_eq!(rt; take_text(text, b"qbits 7"), Some(b"0\nend".as_slice()));
    for (low, high, answer) in [
        (1, 70, Some((70, b"end".as_slice()))),
        (71, 80, None),
        (0, 69, None),
    ] {
        assert_eq!(rt; take_number_line(text, b"qbits", low, high), answer);
    }
}

#[test]
fn lines_are_cut_off(rt: HostRuntime) {
    let mut lines = Lines {
        rest: b"flat 1\n\nend",
        number: 1,
    };
    assert_eq!(rt; lines.next_line(), Some(b"flat 1\n".as_slice()));
    assert_eq!(rt; lines.next_line(), Some(b"\n".as_slice()));
    assert_eq!(rt; lines.next_line(), None);
    assert_eq!(rt; lines.number, 3);
}

#[test]
fn a_line_is_composed(rt: HostRuntime) {
    let mut line = LineBuffer::new();
    line.push(b"x ");
    line.push_i64(i64::MIN);
    line.push(b" ");
    line.push_fixed(Fixed(-1));
    assert_eq!(rt;
        line.as_bytes(),
        b"x -9223372036854775808 -0.000000000001".as_slice()
    );
}

#[test]
fn the_text_that_was_put_last_is_read(rt: HostRuntime) -> Result<(), Fail> {
    let alloc = rt.alloc();
    for name in [b"".as_slice(), b"a", b"abc"] {
        let mut shelf = MemShelf::new(alloc);
        shelf.put(name, b"old")?;
        shelf.put(name, b"new")?;
        let text = read_all(alloc, &mut shelf, name, 3)?;
        assert_eq!(rt; text.as_bytes(), b"new".as_slice());
    }
    Ok(())
}

#[test]
fn texts_past_the_limit_and_other_names_are_refused(rt: HostRuntime) -> Result<(), Fail> {
    let alloc = rt.alloc();
    let mut shelf = MemShelf::new(alloc);
    shelf.put(b"a", b"text")?;
    let result = read_all(alloc, &mut shelf, b"a", 3);
    assert!(rt; matches!(result, Err(ReadAllFault::SourceTooLarge)));
    let result = read_all(alloc, &mut shelf, b"ab", 3);
    assert!(rt; matches!(result, Err(ReadAllFault::ReadFault)));
    Ok(())
}

#[test]
fn a_shelf_fails_at_a_listed_call(rt: HostRuntime) -> Result<(), Fail> {
    let alloc = rt.alloc();
    let mut shelf = MemShelf::new(alloc);
    shelf.put(b"a", b"text")?;
    shelf.fail_at(2)?;
    let result = read_all(alloc, &mut shelf, b"a", 9);
    assert!(rt; matches!(result, Err(ReadAllFault::ReadFault)));
    Ok(())
}

#[test]
fn a_sink_holds_what_was_written_before_a_fault(rt: HostRuntime) -> Result<(), Fail> {
    let mut sink = MemSink::new(rt.alloc(), 1, 4)?;
    sink.fail_at(3)?;
    assert_eq!(rt; write_all(&mut sink, b"flat 1"), Err(WriteFault));
    assert_eq!(rt; sink.written(), b"fl".as_slice());
    assert_eq!(rt;
        write_parts(&mut sink, &[b"", b"a", b"t 1"]),
        Err(WriteFault)
    );
    assert_eq!(rt; sink.written(), b"flat".as_slice());
    Ok(())
}

#[test]
fn a_sink_whose_end_fails_is_not_ended(rt: HostRuntime) -> Result<(), Fail> {
    let mut sink = MemSink::new(rt.alloc(), 1, 4)?;
    sink.fail_at(1)?;
    assert!(rt; sink.finish().is_err() && !sink.ended());
    assert!(rt; sink.finish().is_ok() && sink.ended());
    Ok(())
}

#[test]
fn sure_ones_never_fail(rt: HostRuntime) -> Result<(), Fail> {
    let alloc = rt.alloc();
    let mut text = Text::new(alloc);
    text.push_bytes(b"any")?;
    let mut shelf = SureShelf::new(text);
    let text = read_all(alloc, &mut shelf, b"name", 3)?;
    assert_eq!(rt; text.as_bytes(), b"any".as_slice());
    let mut sink = SureSink::new();
    assert_eq!(rt; write_all(&mut sink, b"text"), Ok(()));
    assert!(rt; sink.finish().is_ok() && sink.ended());
    Ok(())
}

#[test]
fn a_list_grows_at_its_end(rt: HostRuntime) -> Result<(), Fail> {
    let mut list = List::new(rt.alloc());
    list.push(3u8)?;
    list.push(1)?;
    assert_eq!(rt; list.as_slice(), [3, 1].as_slice());
    Ok(())
}

/// A sink that takes a byte a call and counts its calls. It fails from one call on.
#[derive(Drop)]
struct Counting {
    calls: u64,
    fails_from: u64,
    faults: u64,
    is_ended: bool,
}

impl Sink for Counting {
    ghost use Rattle.std.specs.Prelude.{false, []};

    ghost tells = { λ _. false };

    ghost bytes = { λ _. [] };

    ghost faults = { λ s. s.faults };

    ghost is_ended = { λ s. s.is_ended };

    fn write(&mut self, _piece: &[u8]) -> Result<usize, Failed> {
        self.calls = self.calls.saturating_add(1);
        if self.calls >= self.fails_from {
            self.faults = self.faults.saturating_add(1);
            return Err(Failed);
        }
        Ok(1)
    }

    fn finish(&mut self) -> Result<(), Failed> {
        self.calls = self.calls.saturating_add(1);
        if self.calls >= self.fails_from {
            self.faults = self.faults.saturating_add(1);
            return Err(Failed);
        }
        self.is_ended = true;
        Ok(())
    }

    fn ended(&self) -> bool {
        self.is_ended
    }
}

#[test]
fn no_call_follows_a_fault(rt: HostRuntime) {
    for fails_from in 1..5 {
        let mut sink = Counting {
            calls: 0,
            fails_from,
            faults: 0,
            is_ended: false,
        };
        assert_eq!(rt;
            write_parts(&mut sink, &[b"ab", b"", b"cd", b"e"]),
            Err(WriteFault)
        );
        assert_eq!(rt; sink.calls, fails_from);
    }
}
