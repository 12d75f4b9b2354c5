//! Trees of sources. What every tree keeps beside its type is `IsFormedSource` of `specs/Formed.antt`.
use sc_base::{Class, Fixed, GateName, List, Place, Text};

/// A name and where it stands: a letter or `_`, then letters, digits and `_`, and no reserved word.
#[derive(Drop)]
pub struct Name {
    pub text: Text,
    pub place: Place,
}

/// A whole source: its modules and classical functions in the order of the text.
#[derive(Drop)]
pub struct Source {
    pub parts: List<Part>,
}

/// A part of a source.
#[derive(Drop)]
pub enum Part {
    Module(Module),
    Words(WordFn),
}

/// A module. A `return` at its end leaves nothing in the tree.
#[derive(Drop)]
pub struct Module {
    pub name: Name,
    pub params: List<Param>,
    pub body: List<Stmt>,
}

/// A parameter of a module.
#[derive(Drop)]
pub struct Param {
    pub name: Name,
    pub sort: Sort,
}

/// What a parameter takes.
#[derive(Drop)]
pub enum Sort {
    /// One wire.
    One(Class),
    /// An array of wires, with its stated length where there is one.
    Many(Class, Option<Expr>),
    Int,
    Double,
}

/// A statement; its place is that of its first token.
#[cycle(stmt)]
#[derive(Drop)]
pub struct Stmt {
    pub place: Place,
    pub act: Act,
}

/// The kinds of numbers. `float` means `Double`.
#[derive(Clone, Copy, Debug, PartialEq, Eq)]
pub enum NumSort {
    Int,
    Double,
}

/// What a statement does.
#[cycle(stmt)]
#[derive(Drop)]
pub enum Act {
    /// A declaration of wires.
    Wires(Class, List<Decl>),
    /// A declaration of numbers.
    Numbers(NumSort, List<Init>),
    /// A number is set.
    Set(Set),
    /// A qubit is measured into a classical bit, as in `c = MeasZ(q);`.
    Measure(Measure),
    Call(Call),
    /// The condition, what is done where it holds, and the `else`.
    If(Expr, Box<Stmt>, Option<Box<Stmt>>),
    /// The condition and the body.
    While(Expr, Box<Stmt>),
    /// The start, the condition, the advance and the body. The start is a `Numbers`, `Set` or `Measure`
    /// statement, and the advance a `Set` or `Measure` statement.
    For(Option<Box<Stmt>>, Option<Expr>, Option<Box<Stmt>>, Box<Stmt>),
    Block(Vec<Stmt>),
    /// A lone `;`.
    Empty,
}

/// A declared wire, or an array of wires where it has a size.
#[derive(Drop)]
pub struct Decl {
    pub name: Name,
    pub size: Option<Expr>,
}

/// A declared number and its start value; without one it starts at 0.
#[derive(Drop)]
pub struct Init {
    pub name: Name,
    pub start: Option<Expr>,
}

/// A name is set, as in `x = e`, `x += e` or `x++`.
#[derive(Drop)]
pub struct Set {
    pub name: Name,
    pub op: SetOp,
    /// Where the mark stands.
    pub place: Place,
    /// Absent exactly for `Up` and `Down`.
    pub value: Option<Expr>,
}

/// How a name is set: by `=`, `+=`, `-=`, `*=`, `/=`, `%=`, `++`, `--`.
#[derive(Clone, Copy, Debug, PartialEq, Eq)]
pub enum SetOp {
    Put,
    Add,
    Sub,
    Mul,
    Div,
    Rem,
    Up,
    Down,
}

/// A measurement by `MeasX` or `MeasZ` of the qubit `from` into the classical bit `into`.
#[derive(Drop)]
pub struct Measure {
    pub gate: GateName,
    pub into: Operand,
    pub from: Operand,
}

/// A wire: a name, with an index where it is one element of an array.
#[derive(Drop)]
pub struct Operand {
    pub name: Name,
    pub index: Option<Expr>,
}

/// A gate, a module or a classical function with its arguments. Its place is that of the called name.
#[derive(Drop)]
pub struct Call {
    pub callee: Callee,
    pub place: Place,
    pub args: List<Expr>,
}

/// What is called: a gate, or a module or classical function by name.
#[derive(Drop)]
pub enum Callee {
    Gate(GateName),
    Named(Text),
}

/// An expression of numbers, or an operand of a call; its place is that of its first token.
#[cycle(expr)]
#[derive(Drop)]
pub struct Expr {
    pub place: Place,
    pub node: Node,
}

/// The forms of an expression. Numbers are at least 0: a sign is a `Unary`.
#[cycle(expr)]
#[derive(Drop)]
pub enum Node {
    Int(i64),
    Decimal(Fixed),
    Name(Text),
    /// A name with an index, which stands only where a wire is needed.
    Index(Text, Box<Expr>),
    Paren(Box<Expr>),
    Unary(UnOp, Box<Expr>),
    /// Operators of one level of the grammar, at least one, grouped from the left.
    Chain(Box<Expr>, Vec<Link>),
    /// `test ? yes : no`.
    Pick(Box<Expr>, Box<Expr>, Box<Expr>),
}

/// An operator of a chain, its place, and its right operand.
#[cycle(expr)]
#[derive(Drop)]
pub struct Link {
    pub op: BinOp,
    pub place: Place,
    pub right: Expr,
}

/// The operators `-`, `+` and `!` before an operand.
#[derive(Clone, Copy, Debug, PartialEq, Eq)]
pub enum UnOp {
    Minus,
    Plus,
    Not,
}

/// The operators between two operands: `||`, `&&`, `==`, `!=`, `<`, `<=`, `>`, `>=`, `<<`, `>>`, `+`,
/// `-`, `*`, `/`, `%`.
#[derive(Clone, Copy, Debug, PartialEq, Eq)]
pub enum BinOp {
    Or,
    And,
    Eq,
    Ne,
    Lt,
    Le,
    Gt,
    Ge,
    Shl,
    Shr,
    Add,
    Sub,
    Mul,
    Div,
    Rem,
}

/// A classical function: its parameters, the width of its result, its bindings in order, and the
/// returned expression.
#[derive(Drop)]
pub struct WordFn {
    pub name: Name,
    pub params: List<WordParam>,
    pub width: Width,
    pub binds: List<Bind>,
    pub result: WordExpr,
}

/// A width or a shift number and its place. A width that is not written is 1 at the place of the name.
#[derive(Clone, Copy, Debug, PartialEq, Eq)]
pub struct Width {
    pub value: i64,
    pub place: Place,
}

/// A parameter of a classical function.
#[derive(Drop)]
pub struct WordParam {
    pub name: Name,
    pub width: Width,
}

/// A binding `name = value;` of a classical function.
#[derive(Drop)]
pub struct Bind {
    pub name: Name,
    pub value: WordExpr,
}

/// An expression of words; its place is that of its first token.
#[cycle(word_expr)]
#[derive(Drop)]
pub struct WordExpr {
    pub place: Place,
    pub node: WordNode,
}

/// The forms of a word expression.
#[cycle(word_expr)]
#[derive(Drop)]
pub enum WordNode {
    Int(i64),
    Name(Text),
    Paren(Box<WordExpr>),
    /// `~e`.
    Not(Box<WordExpr>),
    /// Operators of one level of the grammar, at least one, grouped from the left.
    Chain(Box<WordExpr>, Vec<WordLink>),
    /// Shifts by numbers, grouped from the left.
    Shift(Box<WordExpr>, List<ShiftLink>),
    /// `test ? yes : no`.
    Pick(Box<WordExpr>, Box<WordExpr>, Box<WordExpr>),
    /// `ext(e, w)`: the word made wider by zeros.
    Ext(Box<WordExpr>, Width),
    /// `low(e, w)`: the lowest bits of the word.
    Low(Box<WordExpr>, Width),
}

/// An operator of a chain of words, its place, and its right operand.
#[cycle(word_expr)]
#[derive(Drop)]
pub struct WordLink {
    pub op: WordOp,
    pub place: Place,
    pub right: WordExpr,
}

/// The operators `|`, `^`, `&`, `==`, `<`, `+`, `-`, `*`.
#[derive(Clone, Copy, Debug, PartialEq, Eq)]
pub enum WordOp {
    Or,
    Xor,
    And,
    Eq,
    Lt,
    Add,
    Sub,
    Mul,
}

/// A shift, to the left (`<<`) or to the right (`>>`).
#[derive(Clone, Copy, Debug, PartialEq, Eq)]
pub struct ShiftLink {
    pub left: bool,
    pub by: Width,
}
