//! What holds of a mailbox at each moment.

use crate::parcel::{Parcel, ParcelMoves};
use catalog::NamedCatalog;
use crossbeam_queue::protocol::{Lesson, Outcome, Protocol};
use std::marker::PhantomData;

/// The parcels in a mailbox have only true updates. It is also what a put records on its pass: that the parcel is put.
pub struct TrueParcels<C> {
    of: PhantomData<C>,
}

impl<C: NamedCatalog> Protocol<Parcel, ParcelMoves> for TrueParcels<C> {
    ghost use Rattle.std.specs.Prelude.{[]};
    ghost use Rattle.posts.specs.Parcels.{moves, HasTrueParcels};

    ghost holds = { HasTrueParcels C.catalog };

    ghost first = { moves [] [] };
}

impl<C: NamedCatalog> Outcome<Parcel, ParcelMoves> for TrueParcels<C> {
    ghost use Rattle.posts.specs.Parcels.{Puts};

    ghost then = { Puts };
}

// What a put learns of a mailbox that is full: that its parcels are true.
impl<C: NamedCatalog> Lesson<Parcel, ParcelMoves> for TrueParcels<C> {
    ghost use Rattle.posts.specs.Parcels.{AreTrueParcels};

    ghost fact = { λ v items. AreTrueParcels C.catalog items };
}

/// What a take records on its pass: that the parcel is taken, and that its updates are true.
pub struct ParcelTaking<C> {
    of: PhantomData<C>,
}

impl<C: NamedCatalog> Outcome<Parcel, ParcelMoves> for ParcelTaking<C> {
    ghost use Rattle.posts.specs.Parcels.{Takes};

    ghost then = { Takes C.catalog };
}

impl<C: NamedCatalog> Lesson<Parcel, ParcelMoves> for ParcelTaking<C> {
    ghost fact = { λ v items. Unit {0} };
}
