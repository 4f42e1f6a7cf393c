//! Mailboxes.

ghost use Rattle.std.specs.Prelude.{◌≡◌, ◌<◌, ◌++◌, ◌∷◌, [], length, All, IfErr, IfNone, IfOk, IfSome, OnOk};
ghost use Rattle.crossbeam_queue.specs.Passes.{IsPassOf, ruled_capacity, view};
ghost use Rattle.posts.specs.Parcels.{IsTrueParcel, WasFull, moves};

use crate::parcel::{Parcel, ParcelMoves};
use crate::rule::{ParcelTaking, TrueParcels};
use catalog::{Catalog, NamedCatalog};
use crossbeam_queue::RuledArrayQueue;
use std::alloc::{AllocError, Global};
use std::marker::PhantomData;
use std::sync::Wait;

type ParcelQueue<C> = RuledArrayQueue<Parcel, ParcelMoves, TrueParcels<C>>;

/// A mailbox of bounded capacity that threads share. All updates in it are true in the catalog that its type names.
#[derive(Drop)]
pub struct Post<C: NamedCatalog> {
    pub queue: ParcelQueue<C>,
}

/// The right of one thread to put parcels into a mailbox and to take them out. Contracts see what was put and taken by it. It has
/// no bytes.
#[derive(Drop)]
pub struct Pass<C: NamedCatalog> {
    pub seat: crossbeam_queue::Pass<Parcel, ParcelMoves>,
    pub of: PhantomData<C>,
}

impl<C: NamedCatalog> Post<C> {
    /// An empty mailbox of this capacity, and the requested number of passes for it, by which nothing was put or taken.
    ///
    /// # Errors
    ///
    /// Fails only where memory is refused.
    pub fn new(
        alloc: Global,
        catalog: &Catalog,
        capacity: u32,
        passes: u32,
    ) -> Result<(Post<C>, Vec<Pass<C>>), AllocError>
        requires named { catalog.now ≡ C.catalog }
        requires room { 0 < capacity }
        ensures holds { IfOk result (λ r. ruled_capacity r.0.queue ≡ capacity) }
        ensures count { IfOk result (λ r. length r.1.items ≡ passes) }
        ensures passes { IfOk result (λ r. All
            (λ p. IsPassOf r.0.queue p.seat × (view p.seat ≡ moves [] [])) r.1.items) }
    {
        let _ = catalog;
        let (queue, _) = ParcelQueue::<C>::ruled(alloc, capacity as usize)?;
        let post = Post { queue };
        let passes = post.issue_passes_to_mailbox(alloc, passes)?;
        Ok((post, passes))
    }

    // `count` more passes.
    fn issue_passes_to_mailbox(&self, alloc: Global, count: u32) -> Result<Vec<Pass<C>>, AllocError>
        ensures count { IfOk result (λ all. length all.items ≡ count) }
        ensures fresh { IfOk result (λ all. All
            (λ p. IsPassOf self.now.queue p.seat × (view p.seat ≡ moves [] [])) all.items) }
    {
        let mut all = Vec::new(alloc);
        for _ in 0..count {
            let pass = self.issue_pass_to_mailbox();
            all.reserve(1)?;
            all.push_reserved(pass);
        }
        Ok(all)
    }

    /// One more pass, by which nothing was put or taken. No memory is allocated.
    pub fn issue_pass_to_mailbox(&self) -> Pass<C>
        ensures { IsPassOf self.now.queue result.seat × (view result.seat ≡ moves [] []) }
    {
        Pass {
            seat: self.queue.pass(),
            of: PhantomData,
        }
    }

    /// Puts a parcel of true updates in. It is handed back where the mailbox was full at some moment of the call. No memory is
    /// allocated.
    pub fn put<R: Wait>(&self, rt: &R, pass: &mut Pass<C>, parcel: Parcel) -> Result<(), Parcel>
        requires pass { IsPassOf self.now.queue pass.old.seat }
        requires is_true { IsTrueParcel C.catalog parcel }
        ensures pass { IsPassOf self.now.queue pass.new.seat }
        ensures put { OnOk result (view pass.new.seat
            ≡ moves ((view pass.old.seat).puts ++ parcel ∷ []) (view pass.old.seat).takes) }
        ensures handed_back { IfErr result (λ back. back ≡ parcel) }
        ensures nothing { IfErr result (λ _. view pass.new.seat ≡ view pass.old.seat) }
        ensures full { IfErr result (λ _. WasFull C.catalog (ruled_capacity self.now.queue)) }
    {
        self.queue
            .push_as::<TrueParcels<C>, R>(rt, &mut pass.seat, parcel)
    }

    /// Takes a parcel out, whose updates are true. There is none where the mailbox was empty at some moment of the call. No
    /// memory is allocated.
    pub fn take<R: Wait>(&self, rt: &R, pass: &mut Pass<C>) -> Option<Parcel>
        requires pass { IsPassOf self.now.queue pass.old.seat }
        ensures pass { IsPassOf self.now.queue pass.new.seat }
        ensures is_true { IfSome result (IsTrueParcel C.catalog) }
        ensures taken { IfSome result (λ parcel. view pass.new.seat
            ≡ moves (view pass.old.seat).puts ((view pass.old.seat).takes ++ parcel ∷ [])) }
        ensures nothing { IfNone result (view pass.new.seat ≡ view pass.old.seat) }
    {
        self.queue.pop_as::<ParcelTaking<C>, R>(rt, &mut pass.seat)
    }
}
