//! What the options of one type of field have beside those that types share.

ghost use Rattle.std.specs.Prelude.{◌≡◌, ◌↔◌, ◌||◌, IsTrue, false, refl};

use tv_date::DateTimePrecision;

/// The part of a field's options that is its type's own: what it is where nothing is set, and how two are joined by `|`.
///
/// Joining doesn't depend on how it is grouped, and a part joined with itself stays as it is.
pub trait OwnPart: Copy + PartialEq {
    ghost unset: { Self };

    ghost join: { Self → Self → Self };

    /// The part where nothing is set.
    fn unset() -> Self
        ensures { result ≡ unset };

    /// The part of the options that two options are joined to.
    fn join(self, right: Self) -> Self
        ensures { result ≡ join self right };

    ghost joins_associatively: { (a b c : Self) → join (join a b) c ≡ join a (join b c) };

    ghost joins_idempotently: { (a : Self) → join a a ≡ a };

    ghost compares_by_value: { (a b : Self) → IsTrue (Self.eq a b) ↔ (a ≡ b) };
}

/// Whether JSON values of another kind are taken for values of the field's type, where they encode one.
#[derive(Clone, Copy, Debug, PartialEq, Eq)]
pub struct Coercion {
    pub(crate) coerce: bool,
}

impl OwnPart for Coercion {
    ghost use Rattle.std.proofs.Common.{rules};

    ghost unset = { record { coerce = false } };

    ghost join = { λ left right. record { coerce = left.coerce || right.coerce } };

    /// No coercion.
    fn unset() -> Coercion {
        Coercion { coerce: false }
    }

    /// Coerced on the left or on the right.
    fn join(self, right: Coercion) -> Coercion {
        Coercion {
            coerce: self.coerce | right.coerce,
        }
    }

    ghost joins_associatively = { Prim.search rules };

    ghost joins_idempotently = { Prim.search rules };

    ghost compares_by_value = { Prim.search rules };
}

/// Whether a dot in a key of a JSON object parts it, as if objects stood in one another.
#[derive(Clone, Copy, Debug, PartialEq, Eq)]
pub struct DotExpansion {
    pub(crate) expand_dots_enabled: bool,
}

impl OwnPart for DotExpansion {
    ghost use Rattle.std.proofs.Common.{rules};

    ghost unset = { record { expand_dots_enabled = false } };

    ghost join = { λ left right. record {
      expand_dots_enabled = left.expand_dots_enabled ||
          right.expand_dots_enabled;
    } };

    /// Dots stay as they stand.
    fn unset() -> DotExpansion {
        DotExpansion {
            expand_dots_enabled: false,
        }
    }

    /// Parted on the left or on the right.
    fn join(self, right: DotExpansion) -> DotExpansion {
        DotExpansion {
            expand_dots_enabled: self.expand_dots_enabled | right.expand_dots_enabled,
        }
    }

    ghost joins_associatively = { Prim.search rules };

    ghost joins_idempotently = { Prim.search rules };

    ghost compares_by_value = { Prim.search rules };
}

impl OwnPart for DateTimePrecision {
    ghost use Rattle.std.proofs.Common.{rules};
    ghost use Rattle.tv_date.specs.declared.date_time.DateTimePrecision.TheVariants.{Seconds};

    ghost unset = { Seconds };

    ghost join = { λ left right. left };

    /// To the second.
    fn unset() -> DateTimePrecision {
        DateTimePrecision::Seconds
    }

    /// The left one.
    fn join(self, _: DateTimePrecision) -> DateTimePrecision {
        self
    }

    ghost joins_associatively = { λ a b c. refl };

    ghost joins_idempotently = { λ a. refl };

    ghost compares_by_value = { Prim.search rules };
}

/// The part of a type that has no options of its own.
pub trait PlainPart: OwnPart {}

/// Bytes have no options of their own.
#[derive(Clone, Copy, Debug, PartialEq, Eq)]
pub struct OfBytes;

impl OwnPart for OfBytes {
    ghost use Rattle.std.proofs.Common.{rules};

    ghost unset = { record {} };

    ghost join = { λ left right. record {} };

    fn unset() -> OfBytes {
        OfBytes
    }

    fn join(self, _: OfBytes) -> OfBytes {
        OfBytes
    }

    ghost joins_associatively = { λ a b c. refl };

    ghost joins_idempotently = { λ a. refl };

    ghost compares_by_value = { Prim.search rules };
}

impl PlainPart for OfBytes {}

/// IP addresses have no options of their own.
#[derive(Clone, Copy, Debug, PartialEq, Eq)]
pub struct OfIpAddrs;

impl OwnPart for OfIpAddrs {
    ghost use Rattle.std.proofs.Common.{rules};

    ghost unset = { record {} };

    ghost join = { λ left right. record {} };

    fn unset() -> OfIpAddrs {
        OfIpAddrs
    }

    fn join(self, _: OfIpAddrs) -> OfIpAddrs {
        OfIpAddrs
    }

    ghost joins_associatively = { λ a b c. refl };

    ghost joins_idempotently = { λ a. refl };

    ghost compares_by_value = { Prim.search rules };
}

impl PlainPart for OfIpAddrs {}
