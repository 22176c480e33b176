//! What is shown of each element.

ghost use Rattle.std.specs.Prelude.{◌≡◌, [], None, Some, true, IfOk};
ghost use Rattle.smil_model.specs.declared.document.Node.{Node as AnyNode};
ghost use Rattle.smil_model.specs.document.Document.{elements, node_at, serials};
ghost use Rattle.smil_model.specs.shown.Orders.{IsState};
ghost use Rattle.smil_model.specs.shown.Views.{blank};
ghost use Rattle.smil_cells.specs.CellsState.{IsSettled};
ghost use Rattle.smil_shown.specs.Sets.{AreOfElements};
ghost use Rattle.smil_shown.specs.ShownViews.{views_at};
ghost use Rattle.smil_shown.specs.ViewTable.{differs, has_view, owners, put_in, view_in as view_among, view_now};

use super::same::is_same;
use smil_cells::{Cells, Table};
use smil_element::{Present, view_of};
use smil_model::{SerialTable, Shown, State, View};
use std::alloc::{AllocError, Global};
use std::marker::Model;
use std::rc::Rc;

/// The views of elements in document order, one of each element; seen as these.
pub struct ViewTable {
    rows: Vec<View>,
    places: Rc<SerialTable>,
}

impl Drop for ViewTable {
    // Dropped by a call of its own, not field by field in each function that drops one.
    fn drop(self) {
        let ViewTable {
            rows: _rows,
            places: _places,
        } = self;
    }
}

impl Model for ViewTable {
    ghost use Rattle.std.specs.Prelude.{List};
    ghost use Rattle.std.specs.FinMap.{get};
    ghost use Rattle.smil_model.specs.declared.view.View.{View as AnyView};
    ghost use Rattle.smil_shown.specs.ViewTable.{AreAt};

    ghost Value = { List AnyView };

    ghost view = { λ s. s.rows.items };

    ghost invariant = { λ s. AreAt (get s.places.value) s.rows.items };
}

impl ViewTable {
    /// No views, unless memory runs out.
    pub fn none(alloc: Global) -> Result<ViewTable, AllocError>
        ensures { IfOk result (λ seen. seen ≡ []) }
    {
        Ok(ViewTable {
            rows: Vec::new(alloc),
            places: Rc::new(alloc, SerialTable::new(alloc))?,
        })
    }

    /// The views of all elements at the present moment, unless memory runs out. The cells answered
    /// no refusal, and are settled.
    pub fn of<T: Table>(alloc: Global, cells: &Cells<T>) -> Result<ViewTable, AllocError>
        requires sound { cells.now.fault ≡ None }
        requires state { IsState cells.now.presentation }
        requires settled { IsSettled cells.now }
        ensures { IfOk result (λ seen. seen ≡ views_at cells.now) }
    {
        let tree = cells.tree();
        tree.valid();
        let rows = views_of(alloc, cells, tree.elements())?;
        let places = cells.past().syncs().places().clone()?;
        Ok(ViewTable { rows, places })
    }

    /// The views, in document order. It takes no memory.
    pub fn views(&self) -> &[View]
        ensures { result.now ≡ self.now }
    {
        &self.rows
    }

    /// The view of an element; where it is not among them a blank one, idle and without times. It
    /// takes no memory.
    pub fn view(&self, serial: u32) -> View
        ensures { result ≡ view_among self.now serial }
    {
        match self.places.get(serial) {
            Some(place) => self.rows[place],
            None => blank(serial),
        }
    }

    /// Puts a view in the place of the one that the element has, and tells whether the two differ.
    /// It takes no memory.
    pub fn put(&mut self, view: &View) -> bool
        requires { has_view self.old view.now.serial ≡ true }
        ensures differs { result ≡ differs self.old view.now }
        ensures put { self.new ≡ put_in self.old view.now }
        ensures owners { owners self.new ≡ owners self.old }
    {
        let place = self.places.get(view.serial).unwrap();
        if is_same(view, &self.rows[place]) {
            return false;
        }
        self.rows[place] = *view;
        true
    }

    /// Puts in the views of the elements at the present moment. There is one for each element of
    /// the cells, which answered no refusal and are settled. It takes no memory.
    #[cold]
    pub fn renew<T: Table>(&mut self, cells: &Cells<T>)
        requires sound { cells.now.fault ≡ None }
        requires state { IsState cells.now.presentation }
        requires settled { IsSettled cells.now }
        requires all { AreOfElements cells.now.presentation.document.nodes self.old }
        ensures { self.new ≡ views_at cells.now }
    {
        renew_all(&mut self.rows, cells);
    }
}

// Puts in the views of the elements of views at the present moment.
fn renew_all<T: Table>(rows: &mut Vec<View>, cells: &Cells<T>)
    requires sound { cells.now.fault ≡ None }
    requires state { IsState cells.now.presentation }
    requires settled { IsSettled cells.now }
    requires all { AreOfElements cells.now.presentation.document.nodes rows.old.items }
    ensures { rows.new.items ≡ views_at cells.now }
{
    for place in 0..rows.len() {
        let serial = rows[place].serial;
        rows[place] = view_in(cells, serial);
    }
}

// The views of all elements, by their serials, at the present moment.
fn views_of<T: Table>(
    alloc: Global,
    cells: &Cells<T>,
    whos: &[u32],
) -> Result<Vec<View>, AllocError>
    requires sound { cells.now.fault ≡ None }
    requires state { IsState cells.now.presentation }
    requires settled { IsSettled cells.now }
    requires all { whos.now ≡ serials (elements cells.now.presentation.document.nodes) }
    ensures { IfOk result (λ views. views.items ≡ views_at cells.now) }
{
    let mut views = Vec::with_capacity(alloc, whos.len())?;
    for who in whos {
        views.push(view_in(cells, *who))?;
    }
    Ok(views)
}

/// The view of an element at the present moment. The cells answered no refusal, and are settled. It
/// takes no memory.
pub fn view_in<T: Table>(cells: &Cells<T>, serial: u32) -> View
    requires sound { cells.now.fault ≡ None }
    requires state { IsState cells.now.presentation }
    requires settled { IsSettled cells.now }
    requires element { (e : AnyNode)
        × (node_at (elements cells.now.presentation.document.nodes) serial ≡ Some e) }
    ensures { (e : AnyNode) → node_at (elements cells.now.presentation.document.nodes) serial
        ≡ Some e → result ≡ view_now cells.now e }
{
    let past = cells.past();
    past.possible();
    let present = Present {
        past,
        who: serial,
        moment: cells.moment(),
    };
    view_of(&present, cells.interval(serial))
}

// The view of an element of which nothing is known.
fn blank(serial: u32) -> View
    ensures { result ≡ blank serial }
{
    View {
        serial,
        state: State::Idle,
        begin: Shown::Nothing,
        end: Shown::Nothing,
        iteration: 0,
        finished: 0,
    }
}
