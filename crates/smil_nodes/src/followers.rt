//! The elements that follow from one that was evaluated.

ghost use Rattle.std.specs.Prelude.{◌≡◌, ◌&&◌, ◌||◌, ℕ, true, OnOk};
ghost use Rattle.smil_model.specs.document.Closure.{has};
ghost use Rattle.smil_model.specs.document.Document.{time_parent};
ghost use Rattle.smil_model.specs.diary.Lawful.{has_element};
ghost use Rattle.smil_cells.specs.Evaluated.{is_container};
ghost use Rattle.smil_nodes.specs.Noted.{AreNoted};

use super::concerned::note_container;
use smil_graph::Graph;
use smil_model::PlaceSet;
use smil_tree::Tree;
use std::alloc::AllocError;

/// What an evaluation of an element changes.
#[derive(Clone, Copy)]
pub struct Effect {
    /// Whether its interval is another than before.
    pub interval: bool,
    /// Whether the ending that is kept of it is another than before.
    pub ending: bool,
}

/// Where the ending that is kept of an element changes, as is said, lists its time parent, if the
/// duration of that follows from its time children. It takes a fixed number of steps; refused where
/// memory runs out.
pub fn put_container(
    tree: &Tree,
    graph: &Graph,
    who: u32,
    changes: bool,
    agenda: &mut PlaceSet,
) -> Result<(), AllocError>
    requires graph { graph.now.nodes ≡ tree.now.nodes }
    requires element { has_element tree.now.nodes who ≡ true }
    ensures { OnOk result (AreNoted graph.now.order
        (λ (s : ℕ). changes && is_container (time_parent graph.now.nodes who) s)
        agenda.old agenda.new) }
{
    if changes {
        note_container(tree, graph, who, agenda)
    } else {
        Ok(())
    }
}

/// Puts ranks in. Refused where memory runs out; some may then be in.
pub fn put_ranks(ranks: &[usize], agenda: &mut PlaceSet) -> Result<(), AllocError>
    ensures { OnOk result ((r : ℕ) → has agenda.new r ≡ (has agenda.old r || has ranks.now r)) }
{
    for rank in ranks {
        agenda.put(*rank)?;
    }
    Ok(())
}
