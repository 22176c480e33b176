//! A document, with what it alone gives.

ghost use Rattle.std.specs.Prelude.{◌≡◌};
ghost use Rattle.smil_graph.specs.Graph.{document_of};
ghost use Rattle.smil_past.specs.Syncs.{all_syncs};

use super::syncs::Syncs;
use smil_graph::Graph;
use smil_tree::Tree;
use std::marker::Model;

/// A document, with its graph and what its items wait for, which never change while the document
/// stays; seen as the document.
pub struct PreparedDocument {
    graph: Graph,
    syncs: Syncs,
}

impl Drop for PreparedDocument {
    // Dropped by a call of its own, not field by field in each function that drops one.
    fn drop(self) {
        let PreparedDocument {
            graph: _graph,
            syncs: _syncs,
        } = self;
    }
}

impl Model for PreparedDocument {
    ghost use Rattle.std.specs.Prelude.{◌≡◌};
    ghost use Rattle.smil_model.specs.document.Document.{Document};
    ghost use Rattle.smil_graph.specs.Graph.{document_of};
    ghost use Rattle.smil_past.specs.Syncs.{all_syncs};

    ghost Value = { Document };

    ghost view = { λ d. document_of d.graph };

    ghost invariant = { λ d. d.syncs ≡ all_syncs d.graph.nodes };
}

impl PreparedDocument {
    /// A document with its graph and what its items wait for.
    pub fn new(graph: Graph, syncs: Syncs) -> PreparedDocument
        requires { syncs ≡ all_syncs graph.nodes }
        ensures { result ≡ document_of graph }
    {
        PreparedDocument { graph, syncs }
    }

    /// The document. It takes no memory.
    pub fn tree(&self) -> &Tree
        ensures { result.now ≡ self.now }
    {
        self.graph.tree()
    }

    /// On which elements each element of the document depends. It takes no memory.
    pub fn graph(&self) -> &Graph
        ensures { result.now.nodes ≡ self.now.nodes }
    {
        &self.graph
    }

    /// What the items of the document's elements wait for. It takes no memory.
    pub fn syncs(&self) -> &Syncs
        ensures { result.now ≡ all_syncs self.now.nodes }
    {
        &self.syncs
    }
}
