//! The forms of a script's values, and lists, pairs and triples of them.
ghost use Rattle.std.specs.Prelude.{◌≡◌, ℕ, Result, map};
ghost use Rattle.serde_json.specs.Data.{Data};
ghost use Rattle.serde_json.specs.View.{view, items_view};
ghost use Rattle.cfg_script.specs.declared.fault.Fault.{Fault};
ghost use Rattle.cfg_script.specs.Faults.{under_place};
ghost use Rattle.cfg_script.specs.Gives.{Reads};
ghost use Rattle.cfg_script.specs.Forms.{each, list_by, pair_of, triple_of};

use crate::fault::{FormError, Step, Wanted, wanting, within};
use crate::json::{items_of, three_items, two_items};
use serde_json::Value;
use std::alloc::Global;
use std::marker::PhantomData;

/// A form of values.
pub(crate) trait Form {
    type Read: Drop;

    ghost Plain: { Type 0 };

    ghost seen: { Self.Read → Plain };

    ghost form: { Data → Result Plain Fault };

    /// What a value of this form says, or the first fault of another one.
    fn read(alloc: Global, value: Value) -> Result<Self::Read, FormError>
        ensures { Reads seen result (form (view value)) };
}

/// The item at this place of a list.
pub(crate) fn read_item<F: Form>(
    alloc: Global,
    place: usize,
    value: Value,
) -> Result<F::Read, FormError>
    ensures { Reads F.seen result (under_place place (F.form (view value))) }
{
    match F::read(alloc, value) {
        Ok(read) => Ok(read),
        Err(FormError::Fault(fault)) => Err(FormError::Fault(within(Step::Item(place), fault)?)),
        Err(FormError::OutOfMemory) => Err(FormError::OutOfMemory),
    }
}

// Memory for fewer items than these is not given back while others follow.
const FEW: usize = 1024;

// Gives back the memory of items that were taken, once it is a quarter of what a long list has.
fn give_back(items: &mut Vec<Value>)
    ensures { items.new.items ≡ items.old.items }
{
    let spare = items.capacity() - items.len();
    if FEW <= spare && items.capacity() / 4 <= spare {
        items.shrink_to_fit();
    }
}

// An item's memory is given back while those behind it are read, so that a long list is not held twice.
fn read_items<F: Form>(alloc: Global, mut items: Vec<Value>) -> Result<Vec<F::Read>, FormError>
    ensures { Reads (λ v. map F.seen v.items) result (each F.form 0 (items_view items.items)) }
{
    let mut read = Vec::with_capacity(alloc, items.len())?;
    items.reverse();
    while let Some(value) = items.pop() {
        let place = read.len();
        read.push(read_item::<F>(alloc, place, value)?)?;
        give_back(&mut items);
    }
    Ok(read)
}

/// A list, of which this is wanted, and each item in its form.
pub(crate) fn read_list<F: Form>(
    alloc: Global,
    wanted: Wanted,
    value: Value,
) -> Result<Vec<F::Read>, FormError>
    ensures { Reads (λ v. map F.seen v.items) result (list_by wanted F.form (view value)) }
{
    let items = wanting(alloc, wanted, items_of(value))?;
    read_items::<F>(alloc, items)
}

/// A list of two, of which this is wanted, and each item in its form.
pub(crate) fn read_pair<F: Form, G: Form>(
    alloc: Global,
    wanted: Wanted,
    value: Value,
) -> Result<(F::Read, G::Read), FormError>
    ensures { Reads (λ p. (F.seen p.0, G.seen p.1)) result (pair_of wanted F.form G.form (view value)) }
{
    let (first, second) = wanting(alloc, wanted, two_items(value))?;
    let first = read_item::<F>(alloc, 0, first)?;
    let second = read_item::<G>(alloc, 1, second)?;
    Ok((first, second))
}

/// A list of three, of which this is wanted, and each item in its form.
pub(crate) fn read_triple<F: Form, G: Form, H: Form>(
    alloc: Global,
    wanted: Wanted,
    value: Value,
) -> Result<(F::Read, G::Read, H::Read), FormError>
    ensures { Reads (λ t. (F.seen t.0, G.seen t.1, H.seen t.2)) result (triple_of wanted F.form G.form H.form (view value)) }
{
    let (first, second, third) = wanting(alloc, wanted, three_items(value))?;
    let first = read_item::<F>(alloc, 0, first)?;
    let second = read_item::<G>(alloc, 1, second)?;
    let third = read_item::<H>(alloc, 2, third)?;
    Ok((first, second, third))
}

/// A list of values of one form.
pub(crate) struct Items<F> {
    of: PhantomData<F>,
}

impl<F: Form> Form for Items<F> {
    ghost use Rattle.std.specs.Prelude.{List, map};
    ghost use Rattle.cfg_script.specs.Forms.{list_of};

    type Read = Vec<F::Read>;

    ghost Plain = { List F.Plain };

    ghost seen = { λ v. map F.seen v.items };

    ghost form = { list_of F.form };

    fn read(alloc: Global, value: Value) -> Result<Vec<F::Read>, FormError> {
        read_list::<F>(alloc, Wanted::List, value)
    }
}
