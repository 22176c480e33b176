//! Outlines, read line by line.

ghost use Rattle.std.specs.Prelude.{ℕ, ◌≡◌, ◌≤◌, ◌<◌, ◌+◌, ◌/◌, ◌==◌, [], take, length, Option, Some, None, Ok, true, false, nat_lt, IfOk, IfErr, IfSome, OnOk, OnErr};
ghost use Rattle.smil_model.specs.declared.limits.TheConstants.{NODES, REFERENCES};
ghost use Rattle.smil_model.specs.declared.document.Kind.{Kind as KindText};
ghost use Rattle.smil_model.specs.document.Edits.{no_attrs};
ghost use Rattle.smil_grammar.specs.Nodes.{kind_of_shape};
ghost use Rattle.smil_attrs.specs.Filled.{filled};
ghost use Rattle.smil_model.specs.document.Limits.{limits};
ghost use Rattle.smil_model.specs.document.Valid.{IsValid, references as all_references, references_among};
ghost use Rattle.smil_grammar.specs.Outlines.{no_lines, with_line, with_header, header_of, opens_saved, shape_in, shape_within, version_of, is_bad_serial as is_bad_serial_in, is_misplaced as is_misplaced_in, ended, last_of, in_line, attrs_in, mixes as mixes_among};
ghost use Rattle.smil_grammar.specs.Gives.{GivesReading};
ghost use Rattle.smil_outline.specs.Gives.{GivesRefusal, GivesDocument};
ghost use Rattle.smil_outline.specs.Branches.{serial_of, is_known, IsPlaced};
ghost use Rattle.smil_outline.specs.Steps.{begins_outline, kind_at, attrs_at, node_of, node_with as node_with_attrs, node_kept, text_of, IsInLine};

use super::branch::Branch;
use super::nodes::Nodes;
use super::refusals::refused;
use smil_attrs::{Shape, fits, read_attrs, read_header, shape_kind};
use smil_lexis::runs;
use smil_lexis::texts::is;
use smil_model::{Attrs, DEPTH, Doc, Kind, LINE_BYTES, NODES, Node, Refusal};
use std::alloc::{AllocError, Global};
use std::marker::Model;

/// Reads an outline line by line, seen as the nodes so far, the serials and kinds of the last node
/// and those above it, from the root down, and the next serial where a header gives it.
pub struct Builder {
    alloc: Global,
    nodes: Nodes,
    branch: Branch,
    next: Option<u32>,
}

impl Drop for Builder {
    // Dropped by a call of its own, not field by field in each function that drops one.
    fn drop(self) {
        let Builder {
            alloc: _alloc,
            nodes: _nodes,
            branch: _branch,
            next: _next,
        } = self;
    }
}

impl Model for Builder {
    ghost use Rattle.smil_grammar.specs.Outlines.{Outline};
    ghost use Rattle.smil_outline.specs.Branches.{IsOfBuilder};

    ghost Value = { Outline };

    ghost view = { λ a. record { nodes = a.nodes; branch = a.branch; next = a.next } };

    ghost invariant = { λ a.
        IsOfBuilder (record { nodes = a.nodes; branch = a.branch; next = a.next }) };
}

// The kind of a node line of this shape behind so many spaces.
#[tactic(auto, using(crate::proofs::FaultColumns::kind_is_near))]
fn kind(spaces: usize, shape: &Shape<'_>) -> Result<Kind, Refusal>
    requires { spaces ≤ LINE_BYTES }
    ensures reading { result ≡ in_line spaces (kind_of_shape (Some shape.now)) }
{
    match shape_kind(shape) {
        Ok(kind) => Ok(kind),
        Err(fault) => Err(refused(spaces, fault)),
    }
}

// Whether the first word of a line is `outline`.
#[inline(never)]
fn begins_outline(line: &[u8]) -> bool
    ensures { result ≡ begins_outline line.now }
{
    let (_, text) = line.split_at(runs::spaces(line));
    let (word, _) = text.split_at(runs::word(text));
    is(word, b"outline")
}

impl Builder {
    /// The outline without a line.
    pub fn new(alloc: Global) -> Result<Builder, AllocError>
        ensures { IfOk result (λ builder. builder ≡ no_lines) }
    {
        Ok(Builder {
            alloc,
            nodes: Nodes::new(alloc)?,
            branch: Branch::new(),
            next: None,
        })
    }

    /// The version of the outline: 2 exactly where a header line was pushed, and else 1.
    pub fn version(&self) -> u32
        ensures { result ≡ version_of self.now }
    {
        match self.next {
            Some(_) => 2,
            None => 1,
        }
    }

    /// Whether a line is a first one whose first word is `outline`.
    pub fn opens(&self, line: &[u8]) -> bool
        ensures { result ≡ opens_saved self.now line.now }
    {
        self.next.is_none() && self.nodes.len() == 0 && begins_outline(line)
    }

    // A node line without its leading spaces: its serial, which it gives or which is the next in
    // document order, and its shape.
    fn shape<'a>(&self, text: &'a [u8]) -> Option<(u32, Shape<'a>)>
        requires { length text.now ≤ LINE_BYTES }
        ensures reading { result ≡ shape_in self.now self.now.next text.now }
        ensures near { IfSome result (λ shape. IsInLine shape.1) }
    {
        match self.next {
            Some(_) => Shape::numbered(text),
            None => {
                let shape = Shape::of(text)?;
                Some((self.nodes.len() as u32 + 1, shape))
            }
        }
    }

    // Whether a serial isn't below the next one, or a node has it already.
    fn is_bad_serial(&self, serial: u32) -> bool
        ensures { result ≡ is_bad_serial_in self.now self.now.next serial }
    {
        match self.next {
            Some(next) => serial >= next || self.nodes.has_serial(serial),
            None => false,
        }
    }

    // The kind of a node, where its serial and its depth are in order.
    fn kind(&self, spaces: usize, serial: u32, shape: &Shape<'_>) -> Result<Kind, Refusal>
        requires { spaces ≤ LINE_BYTES }
        ensures reading { result ≡ kind_at self.now spaces serial shape.now }
        ensures fresh { OnOk result (is_bad_serial_in self.now self.now.next serial ≡ false) }
        ensures near { OnOk result (spaces / 2 ≤ length self.now.branch) }
        ensures flat { OnOk result (spaces / 2 < DEPTH) }
    {
        if spaces % 2 == 1 {
            return Err(Refusal::BadOutline);
        }
        let kind = kind(spaces, shape)?;
        if self.is_bad_serial(serial) {
            return Err(Refusal::BadSerial);
        }
        if spaces / 2 > self.branch.len() {
            return Err(Refusal::DepthJump);
        }
        if spaces / 2 >= DEPTH {
            return Err(Refusal::TooDeep);
        }
        Ok(kind)
    }

    // Whether the node above has children that can't stand beside one of this kind: priorityClass
    // elements beside others. Those that it has are all like the last of them, which is on the
    // branch.
    fn mixes(&self, depth: usize, kind: Kind) -> bool
        requires { depth ≤ length self.now.branch }
        ensures { result ≡ mixes_among self.now.nodes (last_of (take depth self.now.branch)) kind }
    {
        if depth == 0 {
            return false;
        }
        match self.branch.at(depth) {
            Some(last) => last.1.is_element() != kind.is_element(),
            None => false,
        }
    }

    // Whether a node of this depth and kind may not stand below its parent.
    fn is_misplaced(&self, depth: usize, parent: Option<(u32, Kind)>, kind: Kind) -> bool
        requires near { depth ≤ length self.now.branch }
        requires parent { parent ≡ last_of (take depth self.now.branch) }
        ensures { result ≡ is_misplaced_in self.now (take depth self.now.branch) kind }
    {
        !fits(parent.map(|parent| parent.1), kind)
            || (depth == 0 && self.nodes.len() > 0)
            || self.mixes(depth, kind)
    }

    // Reads the attributes of a node line of this shape, below this parent, where none were read.
    fn attrs_below(
        &self,
        spaces: usize,
        parent: Option<(u32, Kind)>,
        kind: Kind,
        shape: &Shape<'_>,
        attrs: &mut Attrs,
    ) -> Result<(), Refusal>
        requires short { spaces ≤ LINE_BYTES }
        requires near { IsInLine shape.now }
        requires bare { attrs.old ≡ no_attrs }
        ensures reading { GivesReading (filled result attrs.new)
            (in_line spaces (attrs_in parent kind shape.now)) }
    {
        match read_attrs(
            self.alloc,
            parent.map(|parent| parent.1),
            kind,
            shape,
            attrs,
        ) {
            Ok(()) => Ok(()),
            Err(fault) => Err(refused(spaces, fault)),
        }
    }

    // Reads the attributes of a node of this kind below this parent, where it may stand there.
    fn attrs(
        &self,
        spaces: usize,
        parent: Option<(u32, Kind)>,
        kind: Kind,
        shape: &Shape<'_>,
        attrs: &mut Attrs,
    ) -> Result<(), Refusal>
        requires short { spaces ≤ LINE_BYTES }
        requires inside { IsInLine shape.now }
        requires near { spaces / 2 ≤ length self.now.branch }
        requires parent { parent ≡ last_of (take (spaces / 2) self.now.branch) }
        requires bare { attrs.old ≡ no_attrs }
        ensures reading { GivesReading (filled result attrs.new)
            (attrs_at self.now spaces (take (spaces / 2) self.now.branch) kind shape.now) }
        ensures placed { OnOk result (is_misplaced_in self.now (take (spaces / 2) self.now.branch)
            kind ≡ false) }
    {
        if self.is_misplaced(spaces / 2, parent, kind) {
            return Err(Refusal::BadPlace);
        }
        self.attrs_below(spaces, parent, kind, shape, attrs)
    }

    // Whether a document with one more node, which has these attributes, is within the limits.
    fn limit(&self, attrs: &Attrs) -> Result<(), Refusal>
        ensures reading { (serial : ℕ) (parent : Option (ℕ × KindText)) (kind : KindText)
            → filled result (node_of serial parent kind attrs.now)
            ≡ node_with_attrs self.now.nodes serial parent kind attrs.now }
        ensures light { OnOk result (all_references self.now.nodes
            + references_among attrs.now ≤ REFERENCES) }
        ensures few { OnOk result (length self.now.nodes < NODES) }
    {
        if self.nodes.has_id(&attrs.id) {
            return Err(Refusal::DuplicateId);
        }
        if self.nodes.len() >= NODES {
            return Err(Refusal::TooManyElements);
        }
        if !self.nodes.has_room(attrs) {
            return Err(Refusal::TooManyReferences);
        }
        Ok(())
    }

    // Reads a line of this shape into a node with its serial and no attributes.
    fn line(&self, spaces: usize, shape: &Shape<'_>, node: &mut Node) -> Result<(), Refusal>
        requires short { spaces ≤ LINE_BYTES }
        requires inside { IsInLine shape.now }
        requires bare { node.old.attrs ≡ no_attrs }
        ensures reading { GivesReading
            (node_kept self.now (spaces / 2) (filled result node.new))
            (shape_within limits self.now spaces (Some (node.old.serial, shape.now))) }
        ensures near { OnOk result (spaces / 2 ≤ length self.now.branch) }
        ensures flat { OnOk result (spaces / 2 < DEPTH) }
        ensures fresh { OnOk result
            (is_bad_serial_in self.now self.now.next node.old.serial ≡ false) }
        ensures light { OnOk result (all_references self.now.nodes
            + references_among node.new.attrs ≤ REFERENCES) }
        ensures few { OnOk result (length self.now.nodes < NODES) }
        ensures serial { OnOk result (node.new.serial ≡ node.old.serial) }
        ensures parent { OnOk result (node.new.parent
            ≡ serial_of (last_of (take (spaces / 2) self.now.branch))) }
        ensures unmixed { OnOk result (mixes_among self.now.nodes
            (last_of (take (spaces / 2) self.now.branch)) node.new.kind ≡ false) }
    {
        let kind = self.kind(spaces, node.serial, shape)?;
        let parent = self.branch.above(spaces / 2);
        self.attrs(spaces, parent, kind, shape, &mut node.attrs)?;
        node.kind = kind;
        node.parent = parent.map_or(0, |parent| parent.0);
        self.limit(&node.attrs)
    }

    // Reads a header.
    #[inline(never)]
    fn open(&mut self, line: &[u8]) -> Result<(), Refusal>
        requires short { length line.now ≤ LINE_BYTES }
        requires first { opens_saved self.old line.now ≡ true }
        ensures ok { OnOk result (with_line self.old line.now ≡ Ok self.new) }
        ensures refusal { IfErr result (GivesRefusal (with_line self.old line.now)) }
        ensures unchanged { OnErr result (self.new ≡ self.old) }
    {
        let Some(next) = read_header(line) else {
            return Err(Refusal::BadOutline);
        };
        self.nodes.keep_places();
        self.next = Some(next);
        Ok(())
    }

    // Reads a node line.
    fn add(&mut self, line: &[u8]) -> Result<(), Refusal>
        requires short { length line.now ≤ LINE_BYTES }
        requires later { opens_saved self.old line.now ≡ false }
        ensures ok { OnOk result (with_line self.old line.now ≡ Ok self.new) }
        ensures refusal { IfErr result (GivesRefusal (with_line self.old line.now)) }
        ensures unchanged { OnErr result (self.new ≡ self.old) }
    {
        let spaces = runs::spaces(line);
        let (_, text) = line.split_at(spaces);
        let Some((serial, shape)) = self.shape(text) else {
            return Err(Refusal::BadOutline);
        };
        let mut node = Node {
            serial,
            kind: Kind::Par,
            parent: 0,
            attrs: Attrs::none(),
        };
        self.line(spaces, &shape, &mut node)?;
        let kind = node.kind;
        if self.nodes.push(node).is_err() {
            return Err(Refusal::Memory);
        }
        self.branch.put(spaces / 2, serial, kind);
        Ok(())
    }

    /// Reads one more line, without its line feed: a header, as the first line alone, or a node
    /// line.
    ///
    /// The header `outline 2 next M` makes it an outline of version 2, whose node lines give their
    /// serials, each below `M`, which is the next serial. Without it the serials are the positions
    /// in document order, from 1. A node line has two spaces for each level, the kind, in version 2
    /// the serial as ` #7`, and attributes.
    ///
    /// Refused, in this order: `LongLine` above 16,384 bytes; `BadOutline` for a first line whose
    /// first word is `outline` that is no header, and for a line that isn't of the shape of a node
    /// line, has no serial in version 2, or has an odd number of spaces before it, a name twice or
    /// an unknown kind; `Unsupported` for a kind that is left out; `BadSerial` in version 2 for a
    /// serial that isn't below the header's number, or that a node has already; `DepthJump` more
    /// than one level below the line before; `TooDeep` at depth 32; `BadPlace` for a second root,
    /// or where the parent can't have such a child, or not beside those that it has; an attribute's
    /// fault, with its column in the line from 1; `DuplicateId`; `TooManyElements` behind 8,000
    /// nodes; `TooManyReferences` above 32,000. `Memory` may come at any node line. After a refusal
    /// the builder is as before.
    pub fn push(&mut self, line: &[u8]) -> Result<(), Refusal>
        ensures ok { OnOk result (with_line self.old line.now ≡ Ok self.new) }
        ensures refusal { IfErr result (GivesRefusal (with_line self.old line.now)) }
        ensures unchanged { OnErr result (self.new ≡ self.old) }
    {
        if line.len() > LINE_BYTES {
            return Err(Refusal::LongLine);
        }
        if self.opens(line) {
            return self.open(line);
        }
        self.add(line)
    }

    /// The document of the lines so far. Its next serial is the header's, or one more than it has
    /// nodes. `BadOutline` exactly where no node line was read; `Memory` may come where there was
    /// one. The document is valid.
    pub fn finish(self) -> Result<Doc, Refusal>
        ensures document { GivesDocument result (ended self) }
        ensures valid { IfOk result IsValid }
    {
        let count = self.nodes.len();
        if count == 0 {
            return Err(Refusal::BadOutline);
        }
        let next = match self.next {
            Some(next) => next,
            None => count as u32 + 1,
        };
        let Builder {
            alloc: _alloc,
            nodes,
            branch: _branch,
            next: _next,
        } = self;
        Ok(nodes.into_doc(next)?)
    }
}
