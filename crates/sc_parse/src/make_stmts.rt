//! Statements from their parts.
ghost use Rattle.std.specs.Prelude.{◌≡◌, ◌++◌, true, is_some, List as Listed, [], ◌∷◌, IfErr, IfOk};
ghost use Rattle.sc_base.specs.declared.GateName.{GateName};
ghost use Rattle.sc_syntax.specs.declared.Mark.TheVariants as m;
ghost use Rattle.sc_syntax.specs.declared.TokenSort.TheVariants as sort;
ghost use Rattle.sc_syntax.specs.declared.Word.TheVariants as reserved;
ghost use Rattle.sc_parse.specs.Derives.{Builds};
ghost use Rattle.sc_parse.specs.Form as symbol;
ghost use Rattle.sc_parse.specs.Pieces.{Piece};
ghost use Rattle.sc_parse.specs.Trees.{Tree, each, expr as expr_part, if_there, kept, meas, name as name_part, set_of, step_of, stmt as tree, token as token_part};

use crate::make::boxed;
use crate::operators;
use crate::reader::Fault;
use sc_base::{GateName, List, Place};
use sc_syntax::{
    Act, Call, Callee, Expr, Mark, Measure, Name, Operand, Set, Stmt, Token, TokenSort,
};
use std::alloc::Global;

/// A name, a mark and a value.
pub fn set(name: Name, mark: Mark, place: Place, value: Expr) -> Stmt
    requires { is_some (set_of mark) ≡ true }
    ensures { (t : Piece) → t.token.sort ≡ sort.Mark mark → t.token.place ≡ place → Builds symbol.Set (name_part name ∷ token_part t ∷ expr_part value ∷ []) (tree result) }
{
    let Some(op) = operators::set(mark) else {
        unreachable!()
    };
    Stmt {
        place: name.place,
        act: Act::Set(Set {
            name,
            op,
            place,
            value: Some(value),
        }),
    }
}

/// A name, and a mark behind it.
pub fn stepped(name: Name, mark: Mark, place: Place) -> Stmt
    requires { is_some (step_of mark) ≡ true }
    ensures { (t : Piece) → t.token.sort ≡ sort.Mark mark → t.token.place ≡ place → Builds symbol.Set (name_part name ∷ token_part t ∷ []) (tree result) }
{
    let Some(op) = operators::step(mark) else {
        unreachable!()
    };
    Stmt {
        place: name.place,
        act: Act::Set(Set {
            name,
            op,
            place,
            value: None,
        }),
    }
}

/// A name, and a mark before it.
pub fn step(place: Place, mark: Mark, name: Name) -> Stmt
    requires { is_some (step_of mark) ≡ true }
    ensures { (t : Piece) → t.token.sort ≡ sort.Mark mark → t.token.place ≡ place → Builds symbol.Set (token_part t ∷ name_part name ∷ []) (tree result) }
{
    let Some(op) = operators::step(mark) else {
        unreachable!()
    };
    Stmt {
        place,
        act: Act::Set(Set {
            name,
            op,
            place,
            value: None,
        }),
    }
}

/// A measurement into a cbit, or into an item of an array of them.
pub fn measured(name: Name, index: Option<Expr>, gate: GateName, from: Operand) -> Stmt
    ensures { (vs : Listed Tree) → kept vs ≡ if_there expr_part index ++ meas gate from ∷ [] → Builds symbol.Set (name_part name ∷ vs) (tree result) }
{
    Stmt {
        place: name.place,
        act: Act::Measure(Measure {
            gate,
            into: Operand { name, index },
            from,
        }),
    }
}

/// A call of a module or a classical function.
pub fn call(name: Name, args: List<Expr>) -> Stmt
    ensures { (t : Piece) (vs : Listed Tree) → t.token.sort ≡ sort.Mark m.OpenParen → kept vs ≡ each expr_part args → Builds symbol.Step (name_part name ∷ token_part t ∷ vs) (tree result) }
{
    let place = name.place;
    Stmt {
        place,
        act: Act::Call(Call {
            callee: Callee::Named(name.text),
            place,
            args,
        }),
    }
}

/// A call of a gate.
pub fn gate(token: Token, args: List<Expr>) -> Stmt
    requires { (g : GateName) × (token.sort ≡ sort.Gate g) }
    ensures { (t : Piece) (vs : Listed Tree) → t.token ≡ token → kept vs ≡ each expr_part args → Builds symbol.Step (token_part t ∷ vs) (tree result) }
{
    let TokenSort::Gate(gate) = token.sort else {
        unreachable!()
    };
    Stmt {
        place: token.place,
        act: Act::Call(Call {
            callee: Callee::Gate(gate),
            place: token.place,
            args,
        }),
    }
}

/// An `if` without an `else`.
pub fn if_only(alloc: Global, place: Place, test: Expr, yes: Stmt) -> Result<Stmt, Fault>
    ensures ok { IfOk result (λ s. (t : Piece) (vs : Listed Tree) → t.token.sort ≡ sort.Word reserved.If → t.token.place ≡ place
        → kept vs ≡ expr_part test ∷ tree yes ∷ [] → Builds symbol.Stmt (token_part t ∷ vs) (tree s)) }
    ensures err { IfErr result (λ e. e ≡ Fault.Memory) }
{
    let yes = boxed(alloc, yes)?;
    Ok(Stmt {
        place,
        act: Act::If(test, yes, None),
    })
}

/// An `if` with an `else`.
pub fn if_else(alloc: Global, place: Place, test: Expr, yes: Stmt, no: Stmt) -> Result<Stmt, Fault>
    ensures ok { IfOk result (λ s. (t : Piece) (vs : Listed Tree) → t.token.sort ≡ sort.Word reserved.If → t.token.place ≡ place
        → kept vs ≡ expr_part test ∷ tree yes ∷ tree no ∷ [] → Builds symbol.Stmt (token_part t ∷ vs) (tree s)) }
    ensures err { IfErr result (λ e. e ≡ Fault.Memory) }
{
    let yes = boxed(alloc, yes)?;
    let no = boxed(alloc, no)?;
    Ok(Stmt {
        place,
        act: Act::If(test, yes, Some(no)),
    })
}

/// A `while`.
pub fn while_loop(alloc: Global, place: Place, test: Expr, body: Stmt) -> Result<Stmt, Fault>
    ensures ok { IfOk result (λ s. (t : Piece) (vs : Listed Tree) → t.token.sort ≡ sort.Word reserved.While → t.token.place ≡ place
        → kept vs ≡ expr_part test ∷ tree body ∷ [] → Builds symbol.Stmt (token_part t ∷ vs) (tree s)) }
    ensures err { IfErr result (λ e. e ≡ Fault.Memory) }
{
    let body = boxed(alloc, body)?;
    Ok(Stmt {
        place,
        act: Act::While(test, body),
    })
}

/// A `for`.
pub fn for_loop(
    alloc: Global,
    place: Place,
    start: Option<Box<Stmt>>,
    test: Option<Expr>,
    advance: Option<Box<Stmt>>,
    body: Stmt,
) -> Result<Stmt, Fault>
    ensures ok { IfOk result (λ s. (t u v w x : Piece) → t.token.sort ≡ sort.Word reserved.For → t.token.place ≡ place
        → Builds symbol.Stmt (token_part t ∷ token_part u ∷ (if_there (λ y. tree y.value) start ++ token_part v ∷ (if_there expr_part test ++ token_part w ∷ (if_there (λ y. tree y.value) advance ++ token_part x ∷ tree body ∷ [])))) (tree s)) }
    ensures err { IfErr result (λ e. e ≡ Fault.Memory) }
{
    let body = boxed(alloc, body)?;
    Ok(Stmt {
        place,
        act: Act::For(start, test, advance, body),
    })
}
