//! Trees of classical functions from their parts.
ghost use Rattle.std.specs.Prelude.{◌≡◌, ◌≢◌, ◌++◌, ℤ, true, false, List as Listed, [], ◌∷◌, IfErr, IfOk, OnOk};
ghost use Rattle.sc_syntax.specs.declared.TokenSort.TheVariants as sort;
ghost use Rattle.sc_syntax.specs.declared.ShiftLink.{ShiftLink};
ghost use Rattle.sc_parse.specs.Derives.{Builds, ShiftLinked, WordLinked};
ghost use Rattle.sc_parse.specs.Form as symbol;
ghost use Rattle.sc_parse.specs.Pieces.{Piece, kind};
ghost use Rattle.sc_parse.specs.Rules.{word_chain_of};
ghost use Rattle.sc_parse.specs.Terminals.{name_kind, is_ext, is_low};
ghost use Rattle.sc_parse.specs.Trees.{Tree, token as token_part, width as width_part, word_expr};

use crate::make::boxed;
use crate::reader::Fault;
use crate::word::WordLevel;
use sc_base::{List, Place, Text};
use sc_syntax::{ShiftLink, Token, TokenSort, Width, WordExpr, WordLink, WordNode};
use std::alloc::Global;

/// Adds a shift at the end.
pub fn push_shift(links: &mut List<ShiftLink>, left: bool, by: Width) -> Result<(), Fault>
    ensures ok { OnOk result ((l : ShiftLink) × (l.left ≡ left) × (l.by ≡ by) × (links.new ≡ links.old ++ l ∷ [])) }
    ensures err { IfErr result (λ e. e ≡ Fault.Memory) }
{
    match links.push(ShiftLink { left, by }) {
        Ok(()) => Ok(()),
        Err(_) => Err(Fault::Memory),
    }
}

/// `(inner)`.
pub fn paren(alloc: Global, place: Place, inner: WordExpr) -> Result<WordExpr, Fault>
    ensures ok { IfOk result (λ e. (t u : Piece) → t.token.place ≡ place → Builds symbol.WPrim (token_part t ∷ word_expr inner ∷ token_part u ∷ []) (word_expr e)) }
    ensures err { IfErr result (λ e. e ≡ Fault.Memory) }
{
    let inner = boxed(alloc, inner)?;
    Ok(WordExpr {
        place,
        node: WordNode::Paren(inner),
    })
}

/// `~operand`.
pub fn not(alloc: Global, place: Place, operand: WordExpr) -> Result<WordExpr, Fault>
    ensures ok { IfOk result (λ e. (t : Piece) → t.token.place ≡ place → Builds symbol.WUnary (token_part t ∷ word_expr operand ∷ []) (word_expr e)) }
    ensures err { IfErr result (λ e. e ≡ Fault.Memory) }
{
    let operand = boxed(alloc, operand)?;
    Ok(WordExpr {
        place,
        node: WordNode::Not(operand),
    })
}

/// `test ? yes : no`.
pub fn pick(alloc: Global, test: WordExpr, yes: WordExpr, no: WordExpr) -> Result<WordExpr, Fault>
    ensures ok { IfOk result (λ e. (t u : Piece) → Builds symbol.WExpr (word_expr test ∷ token_part t ∷ word_expr yes ∷ token_part u ∷ word_expr no ∷ []) (word_expr e)) }
    ensures err { IfErr result (λ e. e ≡ Fault.Memory) }
{
    let place = test.place;
    let test = boxed(alloc, test)?;
    let yes = boxed(alloc, yes)?;
    let no = boxed(alloc, no)?;
    Ok(WordExpr {
        place,
        node: WordNode::Pick(test, yes, no),
    })
}

/// An operand and the links behind it.
pub fn links(
    alloc: Global,
    level: WordLevel,
    first: WordExpr,
    links: Vec<WordLink>,
) -> Result<WordExpr, Fault>
    requires { links.items ≢ [] }
    ensures ok { IfOk result (λ e. (vs : Listed Tree) → WordLinked level vs links.items → Builds (word_chain_of level) (word_expr first ∷ vs) (word_expr e)) }
    ensures err { IfErr result (λ e. e ≡ Fault.Memory) }
{
    let place = first.place;
    let first = boxed(alloc, first)?;
    Ok(WordExpr {
        place,
        node: WordNode::Chain(first, links),
    })
}

/// An operand and the shifts behind it.
pub fn shifts(alloc: Global, first: WordExpr, links: List<ShiftLink>) -> Result<WordExpr, Fault>
    requires { links ≢ [] }
    ensures ok { IfOk result (λ e. (vs : Listed Tree) → ShiftLinked vs links → Builds symbol.WShift (word_expr first ∷ vs) (word_expr e)) }
    ensures err { IfErr result (λ e. e ≡ Fault.Memory) }
{
    let place = first.place;
    let first = boxed(alloc, first)?;
    Ok(WordExpr {
        place,
        node: WordNode::Shift(first, links),
    })
}

/// A whole number.
pub fn int(token: Token) -> WordExpr
    requires { (n : ℤ) × (token.sort ≡ sort.Int n) }
    ensures { (t : Piece) → t.token ≡ token → Builds symbol.WPrim (token_part t ∷ []) (word_expr result) }
{
    match token.sort {
        TokenSort::Int(value) => WordExpr {
            place: token.place,
            node: WordNode::Int(value),
        },
        _ => unreachable!(),
    }
}

/// `ext(inner, width)` or `low(inner, width)`.
pub fn resized(
    alloc: Global,
    place: Place,
    text: Text,
    inner: WordExpr,
    width: Width,
) -> Result<WordExpr, Fault>
    ensures ok { IfOk result (λ e. (t u v x : Piece) → t.token.place ≡ place → t.token.sort ≡ sort.Name → t.text ≡ text → (is_ext (kind t) ≡ false → is_low (kind t) ≡ true)
        → Builds symbol.WPrim (token_part t ∷ token_part u ∷ word_expr inner ∷ token_part v ∷ width_part width ∷ token_part x ∷ []) (word_expr e)) }
    ensures err { IfErr result (λ e. e ≡ Fault.Memory) }
{
    let inner = boxed(alloc, inner)?;
    if text.as_bytes() == b"ext".as_slice() {
        return Ok(WordExpr {
            place,
            node: WordNode::Ext(inner, width),
        });
    }
    Ok(WordExpr {
        place,
        node: WordNode::Low(inner, width),
    })
}
