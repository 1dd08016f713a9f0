// Things that stand one behind the other.
ghost use Rattle.std.specs.Prelude.{◌≡◌, ◌∷◌, [], ◌++◌, ◌<◌, ◌≤◌, IfOk, OnOk, length};
ghost use Rattle.schema_spec.specs.Fronts.{many};
ghost use Rattle.schema_spec.specs.ColumnGrammar.{at_sign, listed, list_in_brackets};
ghost use Rattle.schema_grammar.specs.Parses.{Parses, ParsesMore, behind_comma};

use crate::fronts::{at_sign, sign};
use owned_list::OwnedList;
use schema_spec::{SqlFault, Token};
use std::alloc::{AllocError, Global};
use std::marker::PhantomData;

// What may stand in a list.
pub(crate) trait Item {
    ghost use Rattle.std.specs.Prelude.{ℕ, List};
    ghost use Rattle.schema_spec.specs.declared.token.Token.{Token};
    ghost use Rattle.schema_spec.specs.Fronts.{Front};

    type Output: Drop;

    // The production, by the text and the tokens.
    ghost front: { List ℕ → List Token → Front Self.Output };

    fn read<'a>(
        alloc: Global,
        text: &[u8],
        tokens: &'a [Token],
    ) -> Result<(Self::Output, &'a [Token]), SqlFault>
        ensures parses { Parses text.now (front text.now tokens.now) result }
        ensures shorter { IfOk result (λ read. length read.1.now < length tokens.now) };
}

// What may stand several times, as long as one begins.
pub(crate) trait Repeated: Item {
    ghost use Rattle.std.specs.Prelude.{ℕ, List, Bool, false};
    ghost use Rattle.schema_spec.specs.declared.token.Token.{Token};

    // One begins at these tokens of the text.
    ghost begins: { List ℕ → List Token → Bool };

    fn begins(text: &[u8], tokens: &[Token]) -> bool
        ensures { result ≡ begins text.now tokens.now };

    // None begins at the end of the text.
    ghost ends: { (text : List ℕ) → begins text [] ≡ false };
}

// A comma, and what stands behind it.
pub(crate) struct BehindComma<I> {
    item: PhantomData<I>,
}

impl<I: Item> Item for BehindComma<I> {
    type Output = I::Output;

    ghost front = { λ text tokens. behind_comma text (I.front text) tokens };

    fn read<'a>(
        alloc: Global,
        text: &[u8],
        tokens: &'a [Token],
    ) -> Result<(I::Output, &'a [Token]), SqlFault> {
        let (_comma, rest) = sign(b',', text, tokens)?;
        I::read(alloc, text, rest)
    }
}

impl<I: Item> Repeated for BehindComma<I> {
    ghost use Rattle.std.specs.Prelude.{refl};

    ghost begins = { λ text. at_sign text 44 };

    fn begins(text: &[u8], tokens: &[Token]) -> bool {
        at_sign(b',', text, tokens)
    }

    ghost ends = { λ text. refl };
}

// Puts one more behind the others.
fn append<T: Drop>(items: &mut Vec<T>, item: T) -> Result<(), AllocError>
    ensures { OnOk result (items.new.items ≡ items.old.items ++ (item ∷ [])) }
{
    items.push(item)?;
    Ok(())
}

// Things one behind the other, as long as one begins, put behind these.
pub(crate) fn many_behind<'a, R: Repeated>(
    before: OwnedList<R::Output>,
    alloc: Global,
    text: &[u8],
    tokens: &'a [Token],
) -> Result<(OwnedList<R::Output>, &'a [Token]), SqlFault>
    ensures parses { ParsesMore text.now before (many (R.begins text.now) (R.front text.now) tokens.now) result }
    ensures shorter { IfOk result (λ read. length read.1.now ≤ length tokens.now) }
{
    let mut items = before.into_vec();
    let mut left = tokens;
    'more: while R::begins(text, left) {
        let (item, rest) = R::read(alloc, text, left)?;
        append(&mut items, item)?;
        left = rest;
    }
    Ok((OwnedList::from_vec(items), left))
}

// Things one behind the other, as long as one begins.
pub(crate) fn many<'a, R: Repeated>(
    alloc: Global,
    text: &[u8],
    tokens: &'a [Token],
) -> Result<(OwnedList<R::Output>, &'a [Token]), SqlFault>
    ensures parses { Parses text.now (many (R.begins text.now) (R.front text.now) tokens.now) result }
    ensures shorter { IfOk result (λ read. length read.1.now ≤ length tokens.now) }
{
    let none = OwnedList::from_vec(Vec::new(alloc));
    let (items, rest) = many_behind::<R>(none, alloc, text, tokens)?;
    Ok((items, rest))
}

// A list of one thing.
pub(crate) fn alone<T: Drop>(alloc: Global, item: T) -> Result<OwnedList<T>, AllocError>
    ensures { IfOk result (λ items. items ≡ item ∷ []) }
{
    let mut items = Vec::new(alloc);
    append(&mut items, item)?;
    Ok(OwnedList::from_vec(items))
}

// One thing or more, with commas between them.
pub(crate) fn listed<'a, I: Item>(
    alloc: Global,
    text: &[u8],
    tokens: &'a [Token],
) -> Result<(OwnedList<I::Output>, &'a [Token]), SqlFault>
    ensures parses { Parses text.now (listed text.now (I.front text.now) tokens.now) result }
    ensures shorter { IfOk result (λ read. length read.1.now < length tokens.now) }
{
    let (first, rest) = I::read(alloc, text, tokens)?;
    let before = alone(alloc, first)?;
    let (items, rest) = many_behind::<BehindComma<I>>(before, alloc, text, rest)?;
    Ok((items, rest))
}

// Things in brackets, with commas between them.
pub(crate) fn list_in_brackets<'a, I: Item>(
    alloc: Global,
    text: &[u8],
    tokens: &'a [Token],
) -> Result<(OwnedList<I::Output>, &'a [Token]), SqlFault>
    ensures parses { Parses text.now (list_in_brackets text.now (I.front text.now) tokens.now) result }
    ensures shorter { IfOk result (λ read. length read.1.now < length tokens.now) }
{
    let (_opening, rest) = sign(b'(', text, tokens)?;
    let (items, rest) = listed::<I>(alloc, text, rest)?;
    let (_closing, rest) = sign(b')', text, rest)?;
    Ok((items, rest))
}
