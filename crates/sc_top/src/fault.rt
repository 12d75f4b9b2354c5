//! Why a request ends with a fault.
ghost use Rattle.std.specs.Prelude.{◌≡◌, ◌≤◌, ◌++◌, length, ◌+◌};
ghost use Rattle.sc_top.specs.Fault.{status_of, fault_line, fault_text, reason_name, place_text, at_text, behind_text, weight_of, weight_status, token_refusal, grammar_refusal, type_refusal, elab_refusal, flat_refusal, plan_refusal, hier_refusal, count_refusal, size_refusal};
ghost use Rattle.sc_top.specs.Stages.{fault_of_refusal};

use crate::status::Status;
use sc_base::{LineBuffer, Place};
use sc_check::SchedReadFault;
use sc_count::TallyFault;
use sc_elab::ElabFault;
use sc_flat::PrepFault;
use sc_parse::ParseFault;
use sc_read::{FlatFault, HierFault};
use sc_syntax::LexFault;
use sc_types::TypeFault;

/// Four faults come from outside the texts. The others refuse a request for what its texts are.
#[derive(Clone, Copy, Debug, PartialEq, Eq)]
pub enum Fault {
    Usage,
    ReadFault,
    WriteFault,
    Memory,
    Refused(Refusal),
}

/// A name, and where it stands.
#[derive(Clone, Copy, Debug, PartialEq, Eq)]
pub struct Refusal {
    pub reason: Reason,
    pub at: At,
}

/// Where a refusal stands.
#[derive(Clone, Copy, Debug, PartialEq, Eq)]
pub enum At {
    Nowhere,
    InSource(Place),
    Line(u32),
    /// The position of a gate in its list, from 0.
    Gate(u32),
    /// The number of an instance, and the position of an item in its body, both from 0.
    Item(u32, u32),
}

#[derive(Clone, Copy, Debug, PartialEq, Eq)]
pub enum Reason {
    SourceTooLarge,
    BadByte,
    OpenComment,
    BadNumber,
    BadDefine,
    TooManyTokens,
    Syntax,
    TooNested,
    UnknownName,
    Redefined,
    WrongKind,
    WrongCount,
    MeasuredUse,
    BadWidth,
    NoMain,
    Overflow,
    DivZero,
    OutOfRange,
    BadSize,
    BadLength,
    Repeated,
    BadQasm,
    BadSchedule,
    TooWide,
    TooLong,
    TooDeep,
    TooManyInstances,
    CountTooLarge,
    TooManyWires,
    TooManyGates,
    SchedTooLarge,
    Narrow,
    NarrowItem,
    BadOpen,
}

/// The status that a reason leads to.
#[derive(Clone, Copy, Debug, PartialEq, Eq)]
pub(crate) enum Weight {
    Refused,
    Usage,
    Limit,
}

/// A refusal that stands nowhere.
pub(crate) fn plainly(reason: Reason) -> Fault
    ensures { result ≡ Fault.Refused (record { reason = reason; at = At.Nowhere }) }
{
    Fault::Refused(Refusal {
        reason,
        at: At::Nowhere,
    })
}

fn at_place(reason: Reason, place: Place) -> Fault
    ensures { result ≡ Fault.Refused (record { reason = reason; at = At.InSource place }) }
{
    Fault::Refused(Refusal {
        reason,
        at: At::InSource(place),
    })
}

pub(crate) fn at_line(reason: Reason, line: u32) -> Fault
    ensures { result ≡ Fault.Refused (record { reason = reason; at = At.Line line }) }
{
    Fault::Refused(Refusal {
        reason,
        at: At::Line(line),
    })
}

pub(crate) fn at_gate(reason: Reason, position: u32) -> Fault
    ensures { result ≡ Fault.Refused (record { reason = reason; at = At.Gate position }) }
{
    Fault::Refused(Refusal {
        reason,
        at: At::Gate(position),
    })
}

pub(crate) fn at_item(reason: Reason, instance: u32, position: u32) -> Fault
    ensures { result ≡ Fault.Refused (record { reason = reason; at = At.Item instance position }) }
{
    Fault::Refused(Refusal {
        reason,
        at: At::Item(instance, position),
    })
}

/// The fault of a request over a source whose tokens have this fault.
pub(crate) fn lexing_fault(fault: LexFault) -> Fault
    ensures { result ≡ fault_of_refusal (token_refusal fault) }
{
    match fault {
        LexFault::BadByte(place) => at_place(Reason::BadByte, place),
        LexFault::OpenComment(place) => at_place(Reason::OpenComment, place),
        LexFault::BadNumber(place) => at_place(Reason::BadNumber, place),
        LexFault::BadDefine(place) => at_place(Reason::BadDefine, place),
        LexFault::TooManyTokens(place) => at_place(Reason::TooManyTokens, place),
        LexFault::Memory => Fault::Memory,
    }
}

/// The fault of a request over a source whose tokens leave the grammar so.
pub(crate) fn parsing_fault(fault: ParseFault) -> Fault
    ensures { result ≡ fault_of_refusal (grammar_refusal fault) }
{
    match fault {
        ParseFault::Syntax(place) => at_place(Reason::Syntax, place),
        ParseFault::TooNested(place) => at_place(Reason::TooNested, place),
        ParseFault::Memory => Fault::Memory,
    }
}

/// The fault of a request over a source that is not well typed for this reason.
pub(crate) fn typing_fault(fault: TypeFault) -> Fault
    ensures { result ≡ fault_of_refusal (type_refusal fault) }
{
    match fault {
        TypeFault::UnknownName(place) => at_place(Reason::UnknownName, place),
        TypeFault::Redefined(place) => at_place(Reason::Redefined, place),
        TypeFault::WrongKind(place) => at_place(Reason::WrongKind, place),
        TypeFault::WrongCount(place) => at_place(Reason::WrongCount, place),
        TypeFault::MeasuredUse(place) => at_place(Reason::MeasuredUse, place),
        TypeFault::BadWidth(place) => at_place(Reason::BadWidth, place),
        TypeFault::NoMain => plainly(Reason::NoMain),
        TypeFault::Memory => Fault::Memory,
    }
}

/// The fault of a request over a source whose run is refused for this reason.
pub(crate) fn elab_fault(fault: ElabFault) -> Fault
    ensures { result ≡ fault_of_refusal (elab_refusal fault) }
{
    match fault {
        ElabFault::Overflow(place) => at_place(Reason::Overflow, place),
        ElabFault::DivZero(place) => at_place(Reason::DivZero, place),
        ElabFault::OutOfRange(place) => at_place(Reason::OutOfRange, place),
        ElabFault::BadSize(place) => at_place(Reason::BadSize, place),
        ElabFault::BadLength(place) => at_place(Reason::BadLength, place),
        ElabFault::Repeated(place) => at_place(Reason::Repeated, place),
        ElabFault::TooWide(place) => at_place(Reason::TooWide, place),
        ElabFault::TooLong(place) => at_place(Reason::TooLong, place),
        ElabFault::TooDeep => plainly(Reason::TooDeep),
        ElabFault::TooManyInstances => plainly(Reason::TooManyInstances),
        ElabFault::Memory => Fault::Memory,
    }
}

/// The fault of a request over a flat text that is not read for this reason.
pub(crate) fn flat_fault(fault: FlatFault) -> Fault
    ensures { result ≡ fault_of_refusal (flat_refusal fault) }
{
    match fault {
        FlatFault::SchedTooLarge => plainly(Reason::SchedTooLarge),
        FlatFault::BadQasm(line) => at_line(Reason::BadQasm, line),
        FlatFault::Memory => Fault::Memory,
    }
}

/// The fault of a request over a schedule text that is not read for this reason.
pub(crate) fn plan_fault(fault: SchedReadFault) -> Fault
    ensures { result ≡ fault_of_refusal (plan_refusal fault) }
{
    match fault {
        SchedReadFault::BadSchedule(line) => at_line(Reason::BadSchedule, line),
        SchedReadFault::Memory => Fault::Memory,
    }
}

/// The fault of a request over a hierarchical text that is not read for this reason.
pub(crate) fn hier_fault(fault: HierFault) -> Fault
    ensures { result ≡ fault_of_refusal (hier_refusal fault) }
{
    match fault {
        HierFault::BadQasm(line) => at_line(Reason::BadQasm, line),
        HierFault::TooWide(line) => at_line(Reason::TooWide, line),
        HierFault::TooLong(line) => at_line(Reason::TooLong, line),
        HierFault::TooDeep(line) => at_line(Reason::TooDeep, line),
        HierFault::TooManyInstances(line) => at_line(Reason::TooManyInstances, line),
        HierFault::Memory => Fault::Memory,
    }
}

/// The fault of a request over a deck that has no counts for this reason.
pub(crate) fn count_fault(fault: TallyFault) -> Fault
    ensures { result ≡ fault_of_refusal (count_refusal fault) }
{
    match fault {
        TallyFault::CountTooLarge => plainly(Reason::CountTooLarge),
        TallyFault::Memory => Fault::Memory,
    }
}

/// The fault of a request over a deck that has no flat text for this reason.
pub(crate) fn size_fault(fault: PrepFault) -> Fault
    ensures { result ≡ fault_of_refusal (size_refusal fault) }
{
    match fault {
        PrepFault::TooManyWires => plainly(Reason::TooManyWires),
        PrepFault::TooManyGates => plainly(Reason::TooManyGates),
        PrepFault::Memory => Fault::Memory,
    }
}

impl Reason {
    fn weight(&self) -> Weight
        ensures { result ≡ weight_of self.now }
    {
        match self {
            Reason::SourceTooLarge
            | Reason::TooManyTokens
            | Reason::TooNested
            | Reason::TooWide
            | Reason::TooLong
            | Reason::TooDeep
            | Reason::TooManyInstances
            | Reason::CountTooLarge
            | Reason::TooManyWires
            | Reason::TooManyGates
            | Reason::SchedTooLarge => Weight::Limit,
            Reason::Narrow | Reason::NarrowItem => Weight::Usage,
            _ => Weight::Refused,
        }
    }

    fn name(&self) -> &'static [u8]
        ensures name { result.now ≡ reason_name self.now }
        ensures short { length result.now ≤ 16 }
    {
        match self {
            Reason::SourceTooLarge => b"SourceTooLarge",
            Reason::BadByte => b"BadByte",
            Reason::OpenComment => b"OpenComment",
            Reason::BadNumber => b"BadNumber",
            Reason::BadDefine => b"BadDefine",
            Reason::TooManyTokens => b"TooManyTokens",
            Reason::Syntax => b"Syntax",
            Reason::TooNested => b"TooNested",
            Reason::UnknownName => b"UnknownName",
            Reason::Redefined => b"Redefined",
            Reason::WrongKind => b"WrongKind",
            Reason::WrongCount => b"WrongCount",
            Reason::MeasuredUse => b"MeasuredUse",
            Reason::BadWidth => b"BadWidth",
            Reason::NoMain => b"NoMain",
            Reason::Overflow => b"Overflow",
            Reason::DivZero => b"DivZero",
            Reason::OutOfRange => b"OutOfRange",
            Reason::BadSize => b"BadSize",
            Reason::BadLength => b"BadLength",
            Reason::Repeated => b"Repeated",
            Reason::BadQasm => b"BadQasm",
            Reason::BadSchedule => b"BadSchedule",
            Reason::TooWide => b"TooWide",
            Reason::TooLong => b"TooLong",
            Reason::TooDeep => b"TooDeep",
            Reason::TooManyInstances => b"TooManyInstances",
            Reason::CountTooLarge => b"CountTooLarge",
            Reason::TooManyWires => b"TooManyWires",
            Reason::TooManyGates => b"TooManyGates",
            Reason::SchedTooLarge => b"SchedTooLarge",
            Reason::BadOpen => b"BadOpen",
            Reason::Narrow => b"Narrow",
            Reason::NarrowItem => b"NarrowItem",
        }
    }
}

impl Weight {
    fn status(self) -> Status
        ensures { result ≡ weight_status self }
    {
        match self {
            Weight::Refused => Status::Refused,
            Weight::Usage => Status::Usage,
            Weight::Limit => Status::Limit,
        }
    }
}

impl Fault {
    pub(crate) fn status(&self) -> Status
        ensures { result ≡ status_of self.now }
    {
        match self {
            Fault::Usage => Status::Usage,
            Fault::ReadFault => Status::ReadFailed,
            Fault::WriteFault => Status::WriteFailed,
            Fault::Memory => Status::Memory,
            Fault::Refused(refusal) => refusal.reason.weight().status(),
        }
    }

    /// The line that tells the fault.
    pub(crate) fn line(&self) -> LineBuffer
        ensures { result ≡ fault_line self.now }
    {
        let mut line = LineBuffer::new();
        line.push(b"scaff: ");
        self.push_text(&mut line);
        line.push(b"\n");
        line
    }

    fn push_text(&self, line: &mut LineBuffer)
        requires { length line.old ≤ 7 }
        ensures text { line.new ≡ line.old ++ fault_text self.now }
        ensures short { length line.new ≤ length line.old + 61 }
    {
        match self {
            Fault::Usage => line.push(b"Usage"),
            Fault::ReadFault => line.push(b"ReadFault"),
            Fault::WriteFault => line.push(b"WriteFault"),
            Fault::Memory => line.push(b"Memory"),
            Fault::Refused(refusal) => {
                push_at(line, refusal.at);
                line.push(refusal.reason.name());
                push_behind(line, refusal.at);
            }
        }
    }
}

/// Appends where a refusal stands in a text.
fn push_at(line: &mut LineBuffer, at: At)
    requires { length line.old ≤ 7 }
    ensures text { line.new ≡ line.old ++ at_text at }
    ensures short { length line.new ≤ length line.old + 23 }
{
    match at {
        At::Nowhere | At::Gate(_) | At::Item(..) => {}
        At::InSource(place) => push_place(line, place),
        At::Line(number) => {
            line.push(b"line ");
            line.push_number(number);
            line.push(b": ");
        }
    }
}

/// Appends where a refusal stands in a list.
fn push_behind(line: &mut LineBuffer, at: At)
    requires { length line.old ≤ 46 }
    ensures text { line.new ≡ line.old ++ behind_text at }
    ensures short { length line.new ≤ length line.old + 22 }
{
    match at {
        At::Nowhere | At::InSource(_) | At::Line(_) => {}
        At::Gate(position) => {
            line.push(b" ");
            line.push_number(position);
        }
        At::Item(instance, position) => {
            line.push(b" ");
            line.push_number(instance);
            line.push(b" ");
            line.push_number(position);
        }
    }
}

/// Appends a place, as a line, a column and a space.
fn push_place(line: &mut LineBuffer, place: Place)
    requires { length line.old ≤ 7 }
    ensures text { line.new ≡ line.old ++ place_text place }
    ensures short { length line.new ≤ length line.old + 23 }
{
    line.push_number(place.line);
    line.push(b":");
    line.push_number(place.column);
    line.push(b": ");
}
