//! Where elements stand in document order, shared by what is kept of each of them.

ghost use Rattle.std.specs.Prelude.{◌≡◌, IfOk};
ghost use Rattle.std.specs.FinMap.{get};
ghost use Rattle.smil_model.specs.document.Document.{elements, serials};
ghost use Rattle.smil_instances.specs.Spread.{IsIndex};

use smil_instances::elements::places_of;
use smil_model::SerialTable;
use smil_tree::Tree;
use std::alloc::{AllocError, Global};
use std::rc::Rc;

/// The places of the elements of a document, by their serials; unless memory runs out.
pub fn shared_places(alloc: Global, tree: &Tree) -> Result<Rc<SerialTable>, AllocError>
    ensures { IfOk result (λ places. IsIndex (serials (elements tree.now.nodes))
        (get places.value)) }
{
    let places = places_of(alloc, tree, tree.elements())?;
    Ok(Rc::new(alloc, places)?)
}

/// The place of an element; None where there is no such element. It takes no memory.
#[inline(always)]
pub fn element_place(places: &Rc<SerialTable>, who: u32) -> Option<usize>
    ensures { result ≡ get places.now.value who }
{
    places.get(who)
}
