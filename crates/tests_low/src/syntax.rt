//! Tokens and faults of small sources, worked out by hand.
use sc_base::{Fixed, GateName, Memory, Place};
use sc_syntax::{LexFault, Mark, Token, TokenSort, Word, lex};
use std::alloc::Global;
use std::test::Fail;

const INT: TokenSort = TokenSort::Word(Word::Int);

const NAME: TokenSort = TokenSort::Name;

const ONE: TokenSort = TokenSort::Int(1);

const OPEN: TokenSort = TokenSort::Mark(Mark::OpenParen);

const CLOSE: TokenSort = TokenSort::Mark(Mark::CloseParen);

const READ: [(&[u8], &[TokenSort]); 18] = [
    (b"", &[]),
    (
        b"int _a1\r\n;\x0b\x0c\t\r",
        &[INT, NAME, TokenSort::Mark(Mark::Semicolon)],
    ),
    (b"M_PI main ext low", &[NAME, NAME, NAME, NAME]),
    (b"CNOT Cnot", &[TokenSort::Gate(GateName::Cnot), NAME]),
    (b"1// int /*\n1/* /* \" */1", &[ONE, ONE, ONE]),
    (b"1/**/1", &[ONE, ONE]),
    (
        b"0001 9223372036854775807",
        &[ONE, TokenSort::Int(9_223_372_036_854_775_807)],
    ),
    (
        b".5 5.",
        &[
            TokenSort::Decimal(Fixed(500_000_000_000)),
            TokenSort::Decimal(Fixed(5_000_000_000_000)),
        ],
    ),
    (
        b"0.1234567890129",
        &[TokenSort::Decimal(Fixed(123_456_789_012))],
    ),
    (
        b"a+++b",
        &[
            NAME,
            TokenSort::Mark(Mark::PlusPlus),
            TokenSort::Mark(Mark::Plus),
            NAME,
        ],
    ),
    (
        b"<<=/=",
        &[
            TokenSort::Mark(Mark::ShiftLeft),
            TokenSort::Mark(Mark::Eq),
            TokenSort::Mark(Mark::SlashEq),
        ],
    ),
    (b" \t# \tinclude <a> /* 12ab\n1", &[ONE]),
    (b"#include\"x\"", &[]),
    (
        b"#define A -1 // one\nA",
        &[TokenSort::Mark(Mark::Minus), ONE],
    ),
    (b"#define A ()\nA A", &[OPEN, CLOSE, OPEN, CLOSE]),
    (b"#define A(1)\r\nA", &[OPEN, ONE, CLOSE]),
    (b"#define/**/A/**/-/**/1\nB", &[NAME]),
    (b"#define A ([}{])\n#define B (x)\nB", &[OPEN, NAME, CLOSE]),
];

const BAD_NUMBERS: [(&[u8], u32, u32); 5] = [
    (b"int main() { int x = 12ab; }", 1, 22),
    (b"1.2.3", 1, 1),
    (b"\n 0x10 $", 2, 2),
    (b"9223372036854775808", 1, 1),
    (b"9223372.036854775808", 1, 1),
];

const BAD_BYTES: [(&[u8], u32, u32); 5] = [
    (b"a . b", 1, 3),
    (b"a #define B 1", 1, 3),
    (b"/**/ #define B 1", 1, 6),
    (b"\x0c#define B 1", 1, 2),
    (b"\"", 1, 1),
];

const BAD_DEFINES: [(&[u8], u32, u32); 21] = [
    (b"\n\n#undef A", 3, 1),
    (b"#includex", 1, 1),
    (b"#/**/define A 1", 1, 1),
    (b"#define", 1, 1),
    (b" #define int 1", 1, 2),
    (b"#define H 1", 1, 1),
    (b"#define A", 1, 1),
    (b"#define A b", 1, 1),
    (b"#define A +2", 1, 1),
    (b"#define A --2", 1, 1),
    (b"#define A -(1)", 1, 1),
    (b"#define A 1 2", 1, 1),
    (b"#define A 12ab", 1, 1),
    (b"#define A (1)(2)", 1, 1),
    (b"#define A ((1)", 1, 1),
    (b"#define A )1(", 1, 1),
    (b"#define A (A)", 1, 1),
    (b"#define A 1\n#define B (A)", 2, 1),
    (b"#define A 1\n#define A 1", 2, 1),
    (b"#define A 1 /* \n */", 1, 1),
    (b"#define A ($)", 1, 1),
];

fn sorts_are(alloc: Global, source: &[u8], sorts: &[TokenSort]) -> bool {
    if source.len() > 16_777_216 {
        return false;
    }
    match lex(alloc, source) {
        Err(_) => false,
        Ok(tokens) => are_same(tokens.as_slice(), sorts),
    }
}

fn are_same(tokens: &[Token], sorts: &[TokenSort]) -> bool {
    for (token, sort) in tokens.iter().zip(sorts) {
        if token.sort != *sort {
            return false;
        }
    }
    tokens.len() == sorts.len()
}

fn fault_of(alloc: Global, source: &[u8]) -> Option<LexFault> {
    if source.len() > 16_777_216 {
        return None;
    }
    match lex(alloc, source) {
        Ok(_) => None,
        Err(fault) => Some(fault),
    }
}

#[test]
fn reads_tokens(rt: HostRuntime) {
    for (i, (source, sorts)) in READ.iter().enumerate() {
        assert!(rt; sorts_are(rt.alloc(), source, sorts), "in row {i}");
    }
}

#[test]
fn answers_the_first_fault(rt: HostRuntime) {
    let open = LexFault::OpenComment(Place {
        line: 1,
        column: 14,
    });
    assert_eq!(rt; fault_of(rt.alloc(), b"int main() { /* x"), Some(open));
    for (source, line, column) in BAD_NUMBERS {
        let fault = LexFault::BadNumber(Place { line, column });
        assert_eq!(rt; fault_of(rt.alloc(), source), Some(fault));
    }
    for (source, line, column) in BAD_BYTES {
        let fault = LexFault::BadByte(Place { line, column });
        assert_eq!(rt; fault_of(rt.alloc(), source), Some(fault));
    }
    for (source, line, column) in BAD_DEFINES {
        let fault = LexFault::BadDefine(Place { line, column });
        assert_eq!(rt; fault_of(rt.alloc(), source), Some(fault));
    }
}

#[test]
fn places_a_defined_name_at_its_use(rt: HostRuntime) -> Result<(), Fail> {
    let tokens = lex(rt.alloc(), b"#define A -12\n x A")?;
    let tokens = tokens.as_slice();
    assert_eq!(rt; tokens.len(), 3);
    let name = Token {
        sort: NAME,
        place: Place { line: 2, column: 2 },
        start: 15,
        end: 16,
    };
    assert_eq!(rt; tokens[0], name);
    let number = Token {
        sort: TokenSort::Int(12),
        place: Place { line: 2, column: 4 },
        start: 11,
        end: 13,
    };
    assert_eq!(rt; tokens[2], number);
    Ok(())
}

fn push_times(bytes: &mut Vec<u8>, text: &[u8], times: u32) -> Result<(), Memory> {
    for _ in 0..times {
        if bytes.extend_from_slice(text).is_err() {
            return Err(Memory);
        }
    }
    Ok(())
}

/// A name of 4,096 tokens, used so many times on the second line.
fn uses(alloc: Global, times: u32) -> Result<Vec<u8>, Memory> {
    let mut source = Vec::new(alloc);
    push_times(&mut source, b"#define A (", 1)?;
    push_times(&mut source, b";", 4094)?;
    push_times(&mut source, b")\n", 1)?;
    push_times(&mut source, b"A ", times)?;
    Ok(source)
}

#[test]
fn takes_as_many_tokens_as_a_source_may_have(rt: HostRuntime) -> Result<(), Fail> {
    let source = uses(rt.alloc(), 1024)?;
    assert_eq!(rt; fault_of(rt.alloc(), source.as_slice()), None);
    let source = uses(rt.alloc(), 1025)?;
    let too_many = LexFault::TooManyTokens(Place {
        line: 2,
        column: 2049,
    });
    assert_eq!(rt; fault_of(rt.alloc(), source.as_slice()), Some(too_many));
    Ok(())
}
