//! The layers of the sets that contribute.

ghost use Rattle.std.specs.Prelude.{◌≡◌, ℕ, ◌≤◌, List, [], ◌&&◌, ◌==◌, OnOk, OnErr, bytes_eq, map, slice_get, length, Ok, None};
ghost use Rattle.std.specs.List.{position_or_len};
ghost use Rattle.smil_model.specs.declared.view.Layer.{Layer as AnyLayer};
ghost use Rattle.smil_model.specs.shown.Sandwich.{is_above, layers_on, stack_of};
ghost use Rattle.smil_sandwich.specs.Stacks.{applied, AreKept};

use smil_model::Layer;
use std::alloc::{AllocError, Global};
use std::marker::Model;

/// The layers of the sets that contribute, seen as the list of them from the top down, each with
/// its set. The greater begin stands above, and of equal ones the later in the
/// document. SMIL 3.0, "The animation sandwich model".
#[derive(Drop)]
pub struct Sandwich {
    layers: Vec<(u32, Layer)>,
}

impl Model for Sandwich {
    ghost use Rattle.std.specs.Prelude.{List, ℕ};
    ghost use Rattle.smil_model.specs.declared.view.Layer.{Layer as AnyLayer};

    ghost Value = { List (ℕ × AnyLayer) };

    ghost view = { λ s. s.layers.items };
}

impl Sandwich {
    /// No layer, which takes no memory.
    pub fn new(alloc: Global) -> Sandwich
        ensures { result ≡ [] }
    {
        Sandwich {
            layers: Vec::new(alloc),
        }
    }

    /// Puts the present layer of a set in place of its old one; None where it contributes no
    /// longer, which takes no memory. Where memory runs out all is as before.
    pub fn apply(&mut self, setter: u32, layer: Option<Layer>) -> Result<(), AllocError>
        ensures ok { OnOk result (self.new ≡ applied setter layer self.old) }
        ensures err { OnErr result (self.new ≡ self.old) }
        ensures goes { layer ≡ None → result ≡ Ok tt }
    {
        let Some(layer) = layer else {
            self.layers.retain(|other| other.0 != setter);
            return Ok(());
        };
        self.layers.reserve(1)?;
        self.layers.retain(|other| other.0 != setter);
        let place = place_below(&self.layers, &layer);
        self.layers.insert(place, (setter, layer)).unwrap();
        Ok(())
    }

    /// The set at a place, from 0 at the top, in the stack of an attribute of a target; None
    /// exactly past its end. Where the layers of sets at different places are kept, that is their
    /// stack made from scratch. It takes no memory.
    pub fn at(&self, target: u32, attr: &[u8], k: usize) -> Option<u32>
        ensures kept { result ≡ slice_get
            (map (λ (l : ℕ × AnyLayer). l.0) (layers_on self.now target attr.now)) k }
        ensures model { (all : List (ℕ × AnyLayer)) → AreKept all self.now
            → result ≡ slice_get (stack_of all target attr.now) k }
    {
        let mut stack = self
            .layers
            .iter()
            .filter(|layer| is_on(&layer.1, target, attr));
        Some(stack.nth(k)?.0)
    }
}

// Whether a layer sets this attribute of this target.
fn is_on(layer: &Layer, target: u32, attr: &[u8]) -> bool
    ensures { result ≡ ((layer.now.target == target) && bytes_eq layer.now.attr attr.now) }
{
    layer.target == target && layer.attr.slice() == attr
}

// The place of the first layer that this one is above, or behind all.
fn place_below(layers: &[(u32, Layer)], layer: &Layer) -> usize
    ensures place { result ≡ position_or_len (λ (l : ℕ × AnyLayer). is_above layer.now l.1)
        layers.now }
    ensures within { result ≤ length layers.now }
{
    layers
        .iter()
        .position(|other| is_above(layer, &other.1))
        .unwrap_or(layers.len())
}

// Whether one layer is above another.
fn is_above(layer: &Layer, other: &Layer) -> bool
    ensures { result ≡ is_above layer.now other.now }
{
    other.begin < layer.begin || other.begin <= layer.begin && other.position < layer.position
}

#[cfg(test)]
mod tests {
    use super::*;
    use smil_model::Bytes;
    use std::test::Fail;

    fn region(alloc: Global, begin: i64, position: u32) -> Result<Layer, AllocError> {
        Ok(Layer {
            target: 2,
            attr: Bytes::of(alloc, b"region")?,
            begin,
            position,
        })
    }

    #[test]
    fn stacks(rt: HostRuntime) -> Result<(), Fail> {
        let mut sandwich = Sandwich::new(rt.alloc());
        sandwich.apply(5, Some(region(rt.alloc(), 1000, 3)?))?;
        sandwich.apply(7, Some(region(rt.alloc(), 1000, 4)?))?;
        assert_eq!(rt; sandwich.at(2, b"region", 0), Some(7));
        assert_eq!(rt; sandwich.at(2, b"region", 1), Some(5));
        assert_eq!(rt; sandwich.at(2, b"region", 2), None);
        sandwich.apply(7, None)?;
        assert_eq!(rt; sandwich.at(2, b"region", 0), Some(5));
        Ok(())
    }
}
