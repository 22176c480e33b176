//! Documents: elements in document order, with their timing attributes.

ghost use Rattle.std.specs.Prelude.{◌≡◌, ℕ, ◌<◌, List, [], ◌∷◌, ◌++◌, length, OnOk, OnErr, IfOk, slice_get, option_copied};

use super::duplicate::{Duplicate, copy_of};
use super::growing_list::{Bytes, GrowingList};
use super::limits::ITEMS;
use super::places::HasSerial;
use super::texts::{TextName, Texts};
use super::times::Time;
use std::alloc::{AllocError, Global};
use std::marker::Model;

/// The kind of a node: a time container, the priorityClass of an excl, still media, continuous
/// media, or a `set`, which sets an attribute of another node while it plays. A priorityClass has
/// no times of its own. SMIL 3.0, "The par, seq, excl and priorityClass elements" and "The set
/// element".
#[derive(Clone, Copy)]
pub enum Kind {
    Par,
    Seq,
    Excl,
    PriorityClass,
    Img,
    Text,
    Brush,
    Audio,
    Video,
    Animation,
    TextStream,
    Ref,
    Set,
}

impl Kind {
    ghost use Rattle.std.specs.Prelude.{not};
    ghost use Rattle.smil_model.specs.document.Document.{is_class_kind};
    ghost use Rattle.smil_model.specs.document.Valid.{may_hold as may_hold_kind};

    /// Whether a node of this kind is an element, which has times and a view: each is, but a
    /// priorityClass. It has no condition and takes no memory.
    pub fn is_element(self) -> bool
        ensures { result ≡ not (is_class_kind self) }
    {
        !matches!(self, Kind::PriorityClass)
    }

    /// Whether a node of this kind may have a child of the given one: a container may have each
    /// element, an excl a priorityClass too, and a priorityClass elements. It has no condition and
    /// takes no memory.
    pub fn may_hold(self, child: Kind) -> bool
        ensures { result ≡ may_hold_kind self child }
    {
        match self {
            Kind::Par | Kind::Seq | Kind::PriorityClass => child.is_element(),
            Kind::Excl => true,
            _ => false,
        }
    }
}

/// The begin or the end of an element, which a syncbase item names.
#[derive(Clone, Copy)]
pub enum Edge {
    Begin,
    End,
}

/// An item of a begin or end list, with an offset in milliseconds. SMIL 3.0, "The begin and
/// end attributes".
#[derive(Drop)]
pub enum Item {
    /// An offset alone, from the play start of the time parent.
    Offset {
        offset: i64,
    },
    /// The begin or the end of the element with the id `who`.
    Sync {
        who: Bytes,
        edge: Edge,
        offset: i64,
    },
    /// An event of the element with the id `who`, or of the element itself.
    Event {
        who: Option<Bytes>,
        name: Bytes,
        offset: i64,
    },
    /// The begin of iteration `n`, from 0, of the element with the id `who`, or of the element
    /// itself.
    Repeat {
        who: Option<Bytes>,
        n: u32,
        offset: i64,
    },
    /// A press of the access key `key`, one byte.
    Key {
        key: u8,
        offset: i64,
    },
    /// No begin, and an end that is indefinite.
    Indefinite,
}

impl Duplicate for Item {
    fn copy(&self) -> Result<Self, AllocError> {
        match self {
            Item::Offset { offset } => Ok(Item::Offset { offset: *offset }),
            Item::Sync { who, edge, offset } => Ok(Item::Sync {
                who: who.copy()?,
                edge: *edge,
                offset: *offset,
            }),
            Item::Event { who, name, offset } => Ok(Item::Event {
                who: copy_of(who)?,
                name: name.copy()?,
                offset: *offset,
            }),
            Item::Repeat { who, n, offset } => Ok(Item::Repeat {
                who: copy_of(who)?,
                n: *n,
                offset: *offset,
            }),
            Item::Key { key, offset } => Ok(Item::Key {
                key: *key,
                offset: *offset,
            }),
            Item::Indefinite => Ok(Item::Indefinite),
        }
    }
}

/// A begin or end list, seen as the list of its 1 to 32 items.
#[derive(Drop)]
pub struct Items {
    items: GrowingList<Item>,
}

impl Model for Items {
    ghost use Rattle.std.specs.Prelude.{List, ◌<◌, ◌≤◌, length};
    ghost use Rattle.smil_model.specs.declared.document.Item.{Item};
    ghost use Rattle.smil_model.specs.declared.limits.TheConstants.{ITEMS};

    ghost Value = { List Item };

    ghost view = { λ a. a.items };

    ghost invariant = { λ a. (0 < length a.items) × (length a.items ≤ ITEMS) };

    ghost inverse = { λ items. record { items = items } };
}

impl Items {
    /// The list of one item, unless memory runs out.
    pub fn new(alloc: Global, first: Item) -> Result<Items, AllocError>
        ensures { IfOk result (λ items. items ≡ first ∷ []) }
    {
        let mut items = GrowingList::new(alloc);
        items.push(first)?;
        Ok(Items { items })
    }

    /// Appends an item to a list of fewer than 32 items. Where memory runs out the list is as
    /// before.
    pub fn push(&mut self, item: Item) -> Result<(), AllocError>
        requires { length self.old < ITEMS }
        ensures ok { OnOk result (self.new ≡ self.old ++ item ∷ []) }
        ensures err { OnErr result (self.new ≡ self.old) }
    {
        self.items.push(item)
    }

    /// How many items the list has, from 1 to 32. It takes no memory.
    pub fn len(&self) -> usize
        ensures { result ≡ length self.now }
    {
        self.items.len()
    }

    /// The item at a place from 0; None exactly where the place is not below the length. It takes
    /// no memory.
    pub fn get(&self, place: usize) -> Option<&Item>
        ensures { option_copied result ≡ slice_get self.now place }
    {
        self.items.get(place)
    }

    /// All items, in order. It takes no memory.
    pub fn slice(&self) -> &[Item]
        ensures { result.now ≡ self.now }
    {
        self.items.slice()
    }
}

impl Duplicate for Items {
    fn copy(&self) -> Result<Self, AllocError> {
        Ok(Items {
            items: self.items.copy()?,
        })
    }
}

/// A value of `dur`. SMIL 3.0, "The dur attribute".
#[derive(Clone, Copy)]
pub enum Dur {
    /// A length in milliseconds.
    Clock(i64),
    /// The implicit duration.
    Media,
    Indefinite,
}

/// A value of `repeatCount`. SMIL 3.0, "The repeatCount attribute".
#[derive(Clone, Copy)]
pub enum Count {
    /// A number of iterations, in thousandths.
    Thousandths(u64),
    Indefinite,
}

/// A value of `restart`: whether the element may begin again. SMIL 3.0, "The restart
/// attribute".
#[derive(Clone, Copy)]
pub enum Restart {
    Always,
    WhenNotActive,
    Never,
    /// `default`: the default that holds for the element.
    ByDefault,
}

/// A value of `restartDefault`: the restart of the element and its descendants that state none.
/// SMIL 3.0, "The restartDefault attribute".
#[derive(Clone, Copy)]
pub enum RestartDefault {
    Always,
    WhenNotActive,
    Never,
    /// The default of the time parent.
    Inherit,
}

/// A value of `fill`: what is shown after the end. SMIL 3.0, "The fill attribute".
#[derive(Clone, Copy)]
pub enum Fill {
    Remove,
    Freeze,
    Hold,
    Auto,
    /// `default`: the default that holds for the element.
    ByDefault,
}

/// A value of `fillDefault`: the fill of the element and its descendants that state none.
/// SMIL 3.0, "The fillDefault attribute".
#[derive(Clone, Copy)]
pub enum FillDefault {
    Remove,
    Freeze,
    Hold,
    Auto,
    /// The default of the time parent.
    Inherit,
}

/// A value of `endsync`: the child or the children whose ends decide the implicit duration of a
/// container. SMIL 3.0, "The endsync attribute".
#[derive(Drop)]
pub enum Endsync {
    Last,
    First,
    All,
    /// The time child with this id.
    Child(Bytes),
}

impl Duplicate for Endsync {
    fn copy(&self) -> Result<Self, AllocError> {
        match self {
            Endsync::Last => Ok(Endsync::Last),
            Endsync::First => Ok(Endsync::First),
            Endsync::All => Ok(Endsync::All),
            Endsync::Child(id) => Ok(Endsync::Child(id.copy()?)),
        }
    }
}

/// What an excl does when a child begins while another plays: it stops or pauses the playing child,
/// or defers the newcomer or passes it over. SMIL 3.0, "The priorityClass element".
#[derive(Clone, Copy)]
pub enum Act {
    Stop,
    Pause,
    Defer,
    Never,
}

/// The attributes of a node, each with its value or absent. `min`, `max` and `repeat_dur` are in
/// milliseconds.
#[derive(Drop)]
pub struct Attrs {
    pub id: Option<Bytes>,
    pub begin: Option<Items>,
    pub dur: Option<Dur>,
    pub end: Option<Items>,
    pub min: Option<i64>,
    pub max: Option<Time>,
    pub repeat_count: Option<Count>,
    pub repeat_dur: Option<Time>,
    pub restart: Option<Restart>,
    pub fill: Option<Fill>,
    pub restart_default: Option<RestartDefault>,
    pub fill_default: Option<FillDefault>,
    pub endsync: Option<Endsync>,
    pub peers: Option<Act>,
    pub higher: Option<Act>,
    pub lower: Option<Act>,
    pub texts: Texts,
}

impl Attrs {
    ghost use Rattle.smil_model.specs.document.Defaults.{stated_list};
    ghost use Rattle.smil_model.specs.document.Edits.{no_attrs};

    /// The attributes, each of them absent.
    pub fn none() -> Attrs
        ensures { result ≡ no_attrs }
    {
        Attrs {
            id: None,
            begin: None,
            dur: None,
            end: None,
            min: None,
            max: None,
            repeat_count: None,
            repeat_dur: None,
            restart: None,
            fill: None,
            restart_default: None,
            fill_default: None,
            endsync: None,
            peers: None,
            higher: None,
            lower: None,
            texts: Texts::none(),
        }
    }

    /// The list of `begin` or `end`, where it is stated. It takes no memory.
    pub fn list(&self, side: Edge) -> Option<&Items>
        ensures { option_copied result ≡ stated_list self.now side }
    {
        match side {
            Edge::Begin => self.begin.as_ref(),
            Edge::End => self.end.as_ref(),
        }
    }
}

impl Duplicate for Attrs {
    fn copy(&self) -> Result<Self, AllocError> {
        Ok(Attrs {
            id: copy_of(&self.id)?,
            begin: copy_of(&self.begin)?,
            dur: self.dur,
            end: copy_of(&self.end)?,
            min: self.min,
            max: self.max,
            repeat_count: self.repeat_count,
            repeat_dur: self.repeat_dur,
            restart: self.restart,
            fill: self.fill,
            restart_default: self.restart_default,
            fill_default: self.fill_default,
            endsync: copy_of(&self.endsync)?,
            peers: self.peers,
            higher: self.higher,
            lower: self.lower,
            texts: self.texts.copy()?,
        })
    }
}

/// A node of a document, with its serial and that of its parent; the parent of the root is 0.
/// Serials are from 1 and are not given twice; where an outline states none, they are given in
/// document order.
#[derive(Drop)]
pub struct Node {
    pub serial: u32,
    pub kind: Kind,
    pub parent: u32,
    pub attrs: Attrs,
}

impl HasSerial for Node {
    ghost serial = { λ node. node.serial };

    fn serial(&self) -> u32 {
        self.serial
    }
}

impl Duplicate for Node {
    fn copy(&self) -> Result<Self, AllocError> {
        Ok(Node {
            serial: self.serial,
            kind: self.kind,
            parent: self.parent,
            attrs: self.attrs.copy()?,
        })
    }
}

/// An attribute with its value, in the units of `Attrs`.
#[derive(Drop)]
pub enum Attr {
    Id(Bytes),
    Begin(Items),
    Dur(Dur),
    End(Items),
    Min(i64),
    Max(Time),
    RepeatCount(Count),
    RepeatDur(Time),
    Restart(Restart),
    Fill(Fill),
    RestartDefault(RestartDefault),
    FillDefault(FillDefault),
    Endsync(Endsync),
    Peers(Act),
    Higher(Act),
    Lower(Act),
    Text { name: TextName, text: Bytes },
}

/// An attribute's name.
#[derive(Clone, Copy)]
pub enum AttrName {
    Id,
    Begin,
    Dur,
    End,
    Min,
    Max,
    RepeatCount,
    RepeatDur,
    Restart,
    Fill,
    RestartDefault,
    FillDefault,
    Endsync,
    Peers,
    Higher,
    Lower,
    Text(TextName),
}

/// A document, seen as its nodes in document order and the next serial.
pub struct Doc {
    nodes: GrowingList<Node>,
    next: u32,
}

impl Drop for Doc {
    // Dropped by a call of its own, not field by field in each function that drops one.
    fn drop(self) {
        let Doc {
            nodes: _nodes,
            next: _next,
        } = self;
    }
}

impl Model for Doc {
    ghost use Rattle.smil_model.specs.document.Document.{Document};

    ghost Value = { Document };

    ghost view = { λ a. record { nodes = a.nodes; next = a.next } };

    ghost inverse = { λ document. record { nodes = document.nodes; next = document.next } };
}

impl Doc {
    ghost use Rattle.smil_model.specs.document.Document.{with_node};

    /// The document without a node and with this next serial. It takes no memory.
    pub fn new(alloc: Global, next: u32) -> Doc
        ensures nodes { result.nodes ≡ [] }
        ensures next { result.next ≡ next }
    {
        Doc {
            nodes: GrowingList::new(alloc),
            next,
        }
    }

    /// Appends a node at the end of the document order. Where memory runs out the document is as
    /// before.
    pub fn push(&mut self, node: Node) -> Result<(), AllocError>
        ensures ok { OnOk result (self.new ≡ with_node self.old node) }
        ensures err { OnErr result (self.new ≡ self.old) }
    {
        self.nodes.push(node)
    }

    /// How many nodes the document has. It takes no memory.
    pub fn len(&self) -> usize
        ensures { result ≡ length self.now.nodes }
    {
        self.nodes.len()
    }

    /// The node at a place in document order from 0; None exactly where the place is not below the
    /// number of nodes. It takes no memory.
    pub fn get(&self, place: usize) -> Option<&Node>
        ensures { option_copied result ≡ slice_get self.now.nodes place }
    {
        self.nodes.get(place)
    }

    /// All nodes, in document order. It takes no memory.
    pub fn nodes(&self) -> &[Node]
        ensures { result.now ≡ self.now.nodes }
    {
        self.nodes.slice()
    }

    /// All nodes, in document order, each of them moved and none copied. It takes no memory.
    pub fn into_nodes(self) -> Vec<Node>
        ensures { result.items ≡ self.nodes }
    {
        let Doc { nodes, next: _next } = self;
        nodes.into_vec()
    }

    /// The serial that an inserted node takes. It takes no memory.
    pub fn next(&self) -> u32
        ensures { result ≡ self.now.next }
    {
        self.next
    }
}

impl Duplicate for Doc {
    fn copy(&self) -> Result<Self, AllocError> {
        Ok(Doc {
            nodes: self.nodes.copy()?,
            next: self.next,
        })
    }
}
