//! The restart and the fill of an element, its own or inherited.

ghost use Rattle.std.specs.Prelude.{◌≡◌, None, Some, IsSome, option_map, option_and_then, if◌then◌else◌};
ghost use Rattle.smil_model.specs.declared.document.Fill.TheVariants as fill;
ghost use Rattle.smil_model.specs.declared.document.Restart.TheVariants as restart;
ghost use Rattle.smil_model.specs.document.Defaults.{fill_of, fill_stated, restart_of, restart_stated};
ghost use Rattle.smil_model.specs.document.Document.{node_at, is_element};
ghost use Rattle.smil_tree.specs.Inherited.{own_fill, own_restart};

use super::Tree;
use smil_model::{Attrs, Fill, FillDefault, Node, Restart, RestartDefault};

impl Tree {
    /// The restart of an element: its `restart`, or where that is absent or `default` the
    /// `restartDefault` of the nearest element, itself or above it, that states one, or else
    /// `always`. It takes no memory. SMIL 3.0, "The restartDefault attribute".
    pub fn restart_of(&self, serial: u32) -> Restart
        requires { IsSome (node_at self.now.nodes serial) }
        ensures restart { Some result ≡ option_map (restart_of self.now.nodes)
            (node_at self.now.nodes serial) }
        ensures stated { result ≡ restart.ByDefault → ⊥ }
    {
        self.row(serial).restart
    }

    /// The fill of an element: its `fill`, or where that is absent or `default` the `fillDefault`
    /// of the nearest element, itself or above it, that states one, or else `auto`. It takes
    /// no memory. SMIL 3.0, "The fillDefault attribute".
    pub fn fill_of(&self, serial: u32) -> Fill
        requires { IsSome (node_at self.now.nodes serial) }
        ensures fill { Some result ≡ option_map (fill_of self.now.nodes)
            (node_at self.now.nodes serial) }
        ensures stated { result ≡ fill.ByDefault → ⊥ }
    {
        self.row(serial).fill
    }
}

/// The restart that an element states itself; `default` states none.
pub fn own_restart(attrs: &Attrs) -> Option<Restart>
    ensures { result ≡ own_restart attrs.now.restart }
{
    match attrs.restart {
        Some(Restart::ByDefault) => None,
        stated => stated,
    }
}

/// The fill that an element states itself; `default` states none.
pub fn own_fill(attrs: &Attrs) -> Option<Fill>
    ensures { result ≡ own_fill attrs.now.fill }
{
    match attrs.fill {
        Some(Fill::ByDefault) => None,
        stated => stated,
    }
}

/// The restart that a node states as the default; a priorityClass states none.
pub fn stated_restart(node: &Node) -> Option<Restart>
    ensures { result ≡ (if is_element node.now then option_and_then restart_stated
        node.now.attrs.restart_default else None) }
{
    if !node.kind.is_element() {
        return None;
    }
    match node.attrs.restart_default? {
        RestartDefault::Always => Some(Restart::Always),
        RestartDefault::WhenNotActive => Some(Restart::WhenNotActive),
        RestartDefault::Never => Some(Restart::Never),
        RestartDefault::Inherit => None,
    }
}

/// The fill that a node states as the default; a priorityClass states none.
pub fn stated_fill(node: &Node) -> Option<Fill>
    ensures { result ≡ (if is_element node.now then option_and_then fill_stated
        node.now.attrs.fill_default else None) }
{
    if !node.kind.is_element() {
        return None;
    }
    match node.attrs.fill_default? {
        FillDefault::Remove => Some(Fill::Remove),
        FillDefault::Freeze => Some(Fill::Freeze),
        FillDefault::Hold => Some(Fill::Hold),
        FillDefault::Auto => Some(Fill::Auto),
        FillDefault::Inherit => None,
    }
}
