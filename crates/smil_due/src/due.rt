//! A key, compared by when it happens.

ghost use Rattle.std.specs.Prelude.{◌≡◌};
ghost use Rattle.std.proofs.Common.{refl};
ghost use Rattle.std.specs.Cmp.{eq_by_cmp_equiv, partial_equiv_from_equiv, partial_order_from_total};
ghost use Rattle.std.specs.Ordering.{as_partial_cmp, eq_by_cmp};
ghost use Rattle.smil_due.specs.Order.{key_cmp, key_cmp_total};

use super::order::order_of;
use smil_model::Key;
use std::cmp::Ordering;
use std::marker::Model;

/// A key in the order in which keys happen, in which no two different keys tie.
#[derive(Clone, Copy)]
pub struct Due {
    pub key: Key,
}

impl Model for Due {
    ghost use Rattle.smil_model.specs.declared.happening.Key.{Key};

    ghost Value = { Key };

    ghost view = { λ due. due.key };

    ghost inverse = { λ key. record { key = key } };
}

impl PartialEq for Due {
    ghost eq = { eq_by_cmp key_cmp };

    ghost laws = { partial_equiv_from_equiv (eq_by_cmp_equiv key_cmp_total) };

    fn eq(&self, other: &Due) -> bool {
        self.cmp(other).is_eq()
    }
}

impl Eq for Due {
    ghost laws = { eq_by_cmp_equiv key_cmp_total };
}

impl Ord for Due {
    ghost cmp = { key_cmp };

    ghost total = { key_cmp_total };

    ghost matches_partial_cmp = { λ x y. refl };

    ghost matches_eq = { λ x y. refl };

    fn cmp(&self, other: &Due) -> Ordering {
        order_of(self.key, other.key).then(self.key.serial.cmp(&other.key.serial))
    }
}

impl PartialOrd for Due {
    ghost partial_cmp = { as_partial_cmp key_cmp };

    ghost laws = { partial_order_from_total key_cmp_total };

    fn partial_cmp(&self, other: &Due) -> Option<Ordering> {
        Some(self.cmp(other))
    }
}
