// The value of a line: one element, or a list of them.
ghost use Rattle.std.specs.Prelude.{◌≡◌, ℕ, not, List, None, Result};
ghost use Rattle.std.specs.List.{position};
ghost use Rattle.fixed.specs.Items.{items, most};
ghost use Rattle.format.specs.Bytes.{elements_of};
ghost use Rattle.format.specs.Gives.{GrownGives};
ghost use Rattle.format.specs.Elements.{by, follows, next_of, grown, formed, single_of, list_of};
ghost use Rattle.format.specs.declared.fault.ElementFault.{ElementFault};

use super::bytes::cut;
use super::element::Element;
use super::fault::ElementFault;
use fixed::array_vec::ArrayVec;

// What a line says behind its key, read with the number that its elements have to be below.
pub trait Value: Copy {
    ghost Said: { Type 0 };

    ghost said: { Self → Said };

    ghost reads: { ℕ → List ℕ → Result Said ElementFault };

    fn read(limit: u8, value: &[u8]) -> Result<Self, ElementFault>
        ensures { by said result ≡ reads limit value.now };
}

// A value of one element.
#[derive(Clone, Copy)]
pub struct Single<E> {
    pub item: E,
}

impl<E: Element> Value for Single<E> {
    ghost Said = { E };

    ghost said = { λ s. s.item };

    ghost reads = { single_of E.kind };

    fn read(limit: u8, value: &[u8]) -> Result<Self, ElementFault> {
        let item = E::shape_of(value).ok_or(ElementFault::Form { element: 0 })?;
        if item.is_inside(limit) {
            Ok(Single { item })
        } else {
            Err(ElementFault::Range { element: 0 })
        }
    }
}

// Whether the element may stand behind what comes before it.
fn fits_behind<E: Element>(before: Option<E>, item: E) -> bool
    ensures { result ≡ follows E.kind before item }
{
    before.is_none_or(|x| item.may_follow(x))
}

// The next element of a list: too many, then its shape, then its place.
fn next_element<E: Element, const N: usize>(
    list: &ArrayVec<E, N>,
    piece: &[u8],
) -> Result<E, ElementFault>
    ensures { result ≡ next_of E.kind (most N) (items list.now) piece.now }
{
    let element = list.len();
    if list.is_full() {
        return Err(ElementFault::Form { element });
    }
    let item = E::shape_of(piece).ok_or(ElementFault::Form { element })?;
    if fits_behind(list.last(), item) {
        Ok(item)
    } else {
        Err(ElementFault::Form { element })
    }
}

// One element more.
fn add<E: Element, const N: usize>(
    list: &mut ArrayVec<E, N>,
    piece: &[u8],
) -> Result<(), ElementFault>
    ensures { GrownGives (grown E.kind (most N) (items list.old) piece.now) (items list.new) result }
{
    let item = next_element(list, piece)?;
    list.push(item).unwrap();
    Ok(())
}

// The form of every element.
fn formed_list<E: Element, const N: usize>(value: &[u8]) -> Result<ArrayVec<E, N>, ElementFault>
    ensures { by items result ≡ formed E.kind (most N) 0 None (elements_of value.now) }
{
    let mut list = ArrayVec::default();
    if value.is_empty() {
        return Ok(list);
    }
    let mut rest = value;
    // kept: tried, but a `for` over `value.split(..)` gets no proof in a generic function (DECISIONS.md, "Today's forms")
    while let Some(parts) = cut(rest, b',') {
        add(&mut list, parts.front)?;
        rest = parts.rest;
    }
    add(&mut list, rest)?;
    Ok(list)
}

// The place of the first element outside its limits.
fn outside<E: Element>(list: &[E], limit: u8) -> Option<usize>
    ensures { result ≡ position (λ e. not (E.kind.inside limit e)) list.now }
{
    list.iter().position(|item| !item.is_inside(limit))
}

// A list of at most N elements: the form of every element, then the range of every element.
impl<E: Element, const N: usize> Value for ArrayVec<E, N> {
    ghost Said = { List E };

    ghost said = { items };

    ghost reads = { list_of E.kind (most N) };

    fn read(limit: u8, value: &[u8]) -> Result<Self, ElementFault> {
        let list = formed_list(value)?;
        match outside(list.as_slice(), limit) {
            None => Ok(list),
            Some(place) => Err(ElementFault::Range {
                element: place as u8,
            }),
        }
    }
}
