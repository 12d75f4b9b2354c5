//! Trees from their parts.
ghost use Rattle.std.specs.Prelude.{◌≡◌, ◌≢◌, ◌++◌, ℤ, true, is_some, List as Listed, [], ◌∷◌, IfErr, IfOk, OnOk};
ghost use Rattle.sc_parse.specs.Derives.{Builds, Linked, WordLinked};
ghost use Rattle.sc_parse.specs.Form as symbol;
ghost use Rattle.sc_parse.specs.Pieces.{Piece};
ghost use Rattle.sc_parse.specs.Rules.{chain_of, word_chain_of};
ghost use Rattle.sc_base.specs.declared.Fixed.{Fixed};
ghost use Rattle.sc_syntax.specs.declared.TokenSort.TheVariants as sort;
ghost use Rattle.sc_parse.specs.Trees.{Tree, expr, if_there, kept, name as part_of_name, token, token as part_of_token, unary_of};

use crate::expr::Level;
use crate::operators;
use crate::reader::Fault;
use sc_base::{List, Place};
use sc_syntax::{Expr, Link, Mark, Name, Node, Token, TokenSort};
use std::alloc::Global;

/// Puts a value on the heap.
pub fn boxed<T: Drop>(alloc: Global, value: T) -> Result<Box<T>, Fault>
    ensures ok { IfOk result (λ b. b.value ≡ value) }
    ensures err { IfErr result (λ e. e ≡ Fault.Memory) }
{
    match Box::new(alloc, value) {
        Ok(made) => Ok(made),
        Err(_) => Err(Fault::Memory),
    }
}

/// A list of one item, in the room of one. Most lists of a source have no more.
pub fn one<T: Drop>(alloc: Global, item: T) -> Result<List<T>, Fault>
    ensures ok { IfOk result (λ l. l ≡ item ∷ []) }
    ensures err { IfErr result (λ e. e ≡ Fault.Memory) }
{
    let Ok(mut items) = Vec::with_capacity(alloc, 1) else {
        return Err(Fault::Memory);
    };
    match items.push(item) {
        Ok(()) => Ok(List::from_vec(items)),
        Err(_) => Err(Fault::Memory),
    }
}

/// An empty list with room for one item.
pub fn room_for_one<T>(alloc: Global) -> Result<Vec<T>, Fault>
    ensures ok { IfOk result (λ l. l.items ≡ []) }
    ensures err { IfErr result (λ e. e ≡ Fault.Memory) }
{
    match Vec::with_capacity(alloc, 1) {
        Ok(items) => Ok(items),
        Err(_) => Err(Fault::Memory),
    }
}

/// The list in no more room than it needs.
pub fn fitted<T>(list: Vec<T>) -> Vec<T>
    ensures { result.items ≡ list.items }
{
    let mut list = list;
    list.shrink_to_fit();
    list
}

/// Adds an item at the end. After a fault the list is unchanged.
pub fn push<T: Drop>(list: &mut List<T>, item: T) -> Result<(), Fault>
    ensures ok { OnOk result (list.new ≡ list.old ++ item ∷ []) }
    ensures err { IfErr result (λ e. e ≡ Fault.Memory) }
{
    match list.push(item) {
        Ok(()) => Ok(()),
        Err(_) => Err(Fault::Memory),
    }
}

/// Adds an item at the end.
pub fn push_vec<T: Drop>(list: &mut Vec<T>, item: T) -> Result<(), Fault>
    ensures ok { OnOk result (list.new.items ≡ list.old.items ++ item ∷ []) }
    ensures err { IfErr result (λ e. e ≡ Fault.Memory) }
{
    match list.push(item) {
        Ok(()) => Ok(()),
        Err(_) => Err(Fault::Memory),
    }
}

/// `(inner)`.
pub fn paren(alloc: Global, place: Place, inner: Expr) -> Result<Expr, Fault>
    ensures ok { IfOk result (λ e. (t u : Piece) → t.token.place ≡ place → Builds symbol.Prim (token t ∷ expr inner ∷ token u ∷ []) (expr e)) }
    ensures err { IfErr result (λ e. e ≡ Fault.Memory) }
{
    let inner = boxed(alloc, inner)?;
    Ok(Expr {
        place,
        node: Node::Paren(inner),
    })
}

/// `test ? yes : no`.
pub fn pick(alloc: Global, test: Expr, yes: Expr, no: Expr) -> Result<Expr, Fault>
    ensures ok { IfOk result (λ e. (t u : Piece) → Builds symbol.Expr (expr test ∷ token t ∷ expr yes ∷ token u ∷ expr no ∷ []) (expr e)) }
    ensures err { IfErr result (λ e. e ≡ Fault.Memory) }
{
    let place = test.place;
    let test = boxed(alloc, test)?;
    let yes = boxed(alloc, yes)?;
    let no = boxed(alloc, no)?;
    Ok(Expr {
        place,
        node: Node::Pick(test, yes, no),
    })
}

/// An operand and the links behind it.
pub fn links(alloc: Global, level: Level, first: Expr, links: Vec<Link>) -> Result<Expr, Fault>
    requires { links.items ≢ [] }
    ensures ok { IfOk result (λ e. (vs : Listed Tree) → Linked level vs links.items → Builds (chain_of level) (expr first ∷ vs) (expr e)) }
    ensures err { IfErr result (λ e. e ≡ Fault.Memory) }
{
    let place = first.place;
    let first = boxed(alloc, first)?;
    Ok(Expr {
        place,
        node: Node::Chain(first, links),
    })
}

/// A mark before an operand.
pub fn sign(alloc: Global, place: Place, mark: Mark, operand: Expr) -> Result<Expr, Fault>
    requires { is_some (unary_of mark) ≡ true }
    ensures ok { IfOk result (λ e. (t : Piece) → t.token.sort ≡ sort.Mark mark → t.token.place ≡ place → Builds symbol.Unary (token t ∷ expr operand ∷ []) (expr e)) }
    ensures err { IfErr result (λ e. e ≡ Fault.Memory) }
{
    let Some(op) = operators::unary(mark) else {
        unreachable!()
    };
    let operand = boxed(alloc, operand)?;
    Ok(Expr {
        place,
        node: Node::Unary(op, operand),
    })
}

/// A whole number.
pub fn int(token: Token) -> Expr
    requires { (n : ℤ) × (token.sort ≡ sort.Int n) }
    ensures { (t : Piece) → t.token ≡ token → Builds symbol.Prim (part_of_token t ∷ []) (expr result) }
{
    match token.sort {
        TokenSort::Int(value) => Expr {
            place: token.place,
            node: Node::Int(value),
        },
        _ => unreachable!(),
    }
}

/// A number with a point.
pub fn decimal(token: Token) -> Expr
    requires { (d : Fixed) × (token.sort ≡ sort.Decimal d) }
    ensures { (t : Piece) → t.token ≡ token → Builds symbol.Prim (part_of_token t ∷ []) (expr result) }
{
    match token.sort {
        TokenSort::Decimal(value) => Expr {
            place: token.place,
            node: Node::Decimal(value),
        },
        _ => unreachable!(),
    }
}

/// A name, or an item of the array that it names.
pub fn named(alloc: Global, name: Name, index: Option<Expr>) -> Result<Expr, Fault>
    ensures ok { IfOk result (λ e. (vs : Listed Tree) → kept vs ≡ if_there expr index → Builds symbol.Prim (part_of_name name ∷ vs) (expr e)) }
    ensures err { IfErr result (λ e. e ≡ Fault.Memory) }
{
    let place = name.place;
    let Some(index) = index else {
        return Ok(Expr {
            place,
            node: Node::Name(name.text),
        });
    };
    let index = boxed(alloc, index)?;
    Ok(Expr {
        place,
        node: Node::Index(name.text, index),
    })
}
