//! What is told of changes.

ghost use Rattle.std.specs.Prelude.{◌≡◌, [], ◌∷◌, ◌++◌, ℕ, pos, Some, IsSome, OnOk, OnErr};
ghost use Rattle.smil_model.specs.declared.document.Node.{Node as AnyNode};
ghost use Rattle.smil_model.specs.document.Document.{node_at};
ghost use Rattle.smil_model.specs.shown.Answers.{name_in};
ghost use Rattle.smil_report.specs.Tellings.{Begins};
ghost use Rattle.smil_report.specs.Words.{who_of};
ghost use Rattle.smil_shown.specs.ViewTable.{AreOf};
ghost use Rattle.smil_shown.specs.Told.{told_between, told_gone, views_told};

use super::same::is_same;
use super::view_table::ViewTable;
use smil_model::{GrowingList, View};
use smil_report::{ChangeItem, Name};
use smil_tree::Tree;
use std::alloc::AllocError;

/// The document by which nodes are named, and the moment that is told, in milliseconds of
/// document time.
#[derive(Clone, Copy)]
pub struct Scene<'a> {
    pub tree: &'a Tree,
    pub moment: i64,
}

/// A node by its id, or by its serial where it has none. It takes no memory.
pub fn name_of(tree: &Tree, serial: u32) -> Name<'_>
    requires { IsSome (node_at tree.now.nodes serial) }
    ensures { who_of result ≡ name_in tree.now.nodes serial }
{
    match &tree.attrs(serial).id {
        Some(id) => Name::Id(id.slice()),
        None => Name::Serial(serial),
    }
}

/// Appends what is told of a view. Where memory is refused, `out` is as before.
pub fn put_view<I: ChangeItem>(
    scene: Scene<'_>,
    view: &View,
    out: &mut GrowingList<I>,
) -> Result<(), AllocError>
    requires { IsSome (node_at scene.tree.now.nodes view.now.serial) }
    ensures ok { OnOk result (out.new ≡ out.old ++ I.telling.change scene.entry.moment
        (name_in scene.entry.tree.now.nodes view.now.serial) view.now) }
    ensures err { OnErr result (out.new ≡ out.old) }
{
    I::put_change(out, scene.moment, name_of(scene.tree, view.serial), view)
}

/// Appends what is told of the views that differ from those before, in the order of the views.
/// Where memory is refused, some of it stands in `out`.
pub fn put_differences<I: ChangeItem>(
    scene: Scene<'_>,
    before: &ViewTable,
    after: &ViewTable,
    out: &mut GrowingList<I>,
) -> Result<(), AllocError>
    requires { AreOf scene.tree.now.nodes after.now }
    ensures ok { (m : ℕ) → scene.entry.moment ≡ pos m
        → OnOk result (out.new ≡ out.old ++ told_between I.telling scene.entry.tree.now.nodes m
        before.now after.now) }
    ensures err { OnErr result (Begins out.old out.new) }
{
    for view in after.views() {
        put_difference(scene, before, view, out)?;
    }
    Ok(())
}

// Appends what is told of a view, where it differs from the one that the element had before.
fn put_difference<I: ChangeItem>(
    scene: Scene<'_>,
    before: &ViewTable,
    view: &View,
    out: &mut GrowingList<I>,
) -> Result<(), AllocError>
    requires { IsSome (node_at scene.tree.now.nodes view.now.serial) }
    ensures ok { (m : ℕ) → scene.entry.moment ≡ pos m
        → OnOk result (out.new ≡ out.old ++ told_between I.telling scene.entry.tree.now.nodes m
        before.now (view.now ∷ [])) }
    ensures begins { OnOk result (Begins out.old out.new) }
    ensures err { OnErr result (out.new ≡ out.old) }
{
    if is_same(view, &before.view(view.serial)) {
        Ok(())
    } else {
        put_view(scene, view, out)
    }
}

/// Appends what is told of all views, in their order. Where memory is refused, some of it stands in
/// `out`.
pub fn put_views<I: ChangeItem>(
    scene: Scene<'_>,
    seen: &ViewTable,
    out: &mut GrowingList<I>,
) -> Result<(), AllocError>
    requires { AreOf scene.tree.now.nodes seen.now }
    ensures ok { (m : ℕ) → scene.entry.moment ≡ pos m → OnOk result (out.new ≡ out.old
        ++ views_told I.telling scene.entry.tree.now.nodes m seen.now) }
    ensures err { OnErr result (Begins out.old out.new) }
{
    for view in seen.views() {
        put_view(scene, view, out)?;
    }
    Ok(())
}

/// Appends what is told of the elements of the document that another doesn't have, in document
/// order. Where memory is refused, some of it stands in `out`.
pub fn put_all_gone<I: ChangeItem>(
    scene: Scene<'_>,
    after: &Tree,
    out: &mut GrowingList<I>,
) -> Result<(), AllocError>
    ensures ok { OnOk result (out.new ≡ out.old
        ++ told_gone I.telling after.now.nodes scene.entry.moment scene.entry.tree.now.nodes) }
    ensures err { OnErr result (Begins out.old out.new) }
{
    scene.tree.valid();
    for node in scene.tree.nodes() {
        put_where_gone(scene, after, node.serial, out)?;
    }
    Ok(())
}

// Appends what is told of a node, where it is an element that another document doesn't have.
fn put_where_gone<I: ChangeItem>(
    scene: Scene<'_>,
    after: &Tree,
    serial: u32,
    out: &mut GrowingList<I>,
) -> Result<(), AllocError>
    requires { IsSome (node_at scene.tree.now.nodes serial) }
    ensures ok { (n : AnyNode) → node_at scene.entry.tree.now.nodes serial ≡ Some n
        → OnOk result (out.new ≡ out.old
        ++ told_gone I.telling after.now.nodes scene.entry.moment (n ∷ [])) }
    ensures begins { OnOk result (Begins out.old out.new) }
    ensures err { OnErr result (out.new ≡ out.old) }
{
    if scene.tree.kind(serial).is_element() && after.position(serial).is_none() {
        I::put_gone(out, scene.moment, name_of(scene.tree, serial), serial)
    } else {
        Ok(())
    }
}
