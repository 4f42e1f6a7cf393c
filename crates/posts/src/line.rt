//! A mailbox with a pass for it.

ghost use Rattle.std.specs.Prelude.{◌≡◌, ◌++◌, ◌∷◌, [], IfErr, IfNone, IfSome, OnOk};
ghost use Rattle.crossbeam_queue.specs.Passes.{IsPassOf, ruled_capacity, view};
ghost use Rattle.posts.specs.Parcels.{IsTrueParcel, WasFull, moves};

use crate::parcel::Parcel;
use crate::post::{Pass, Post};
use catalog::NamedCatalog;
use std::sync::Wait;

/// One thread's way to a mailbox: the mailbox, and a pass for it.
#[derive(Drop)]
pub struct MailboxPort<'a, C: NamedCatalog> {
    post: &'a Post<C>,
    pass: Pass<C>,
    ghost of_this: { IsPassOf post.now.queue pass.seat },
}

impl<'a, C: NamedCatalog> MailboxPort<'a, C> {
    /// A way to this mailbox, by a new pass. No memory is allocated.
    pub fn new(post: &'a Post<C>) -> MailboxPort<'a, C>
        ensures fresh { view result.pass.seat ≡ moves [] [] }
        ensures post { result.post.now ≡ post.now }
    {
        MailboxPort {
            post,
            pass: post.issue_pass_to_mailbox(),
        }
    }

    /// Puts a parcel of true updates in, as `Post::put` does.
    pub fn put_parcel<R: Wait>(&mut self, rt: &R, parcel: Parcel) -> Result<(), Parcel>
        requires is_true { IsTrueParcel C.catalog parcel }
        ensures put { OnOk result (view self.new.pass.seat
            ≡ moves ((view self.old.pass.seat).puts ++ parcel ∷ []) (view self.old.pass.seat).takes) }
        ensures handed_back { IfErr result (λ back. back ≡ parcel) }
        ensures nothing { IfErr result (λ _. view self.new.pass.seat ≡ view self.old.pass.seat) }
        ensures full { IfErr result (λ _. WasFull C.catalog (ruled_capacity self.old.post.now.queue)) }
        ensures post { self.new.post.now ≡ self.old.post.now }
    {
        self.post.put(rt, &mut self.pass, parcel)
    }

    /// Takes a parcel out, as `Post::take` does. Its updates are true.
    pub fn take_parcel<R: Wait>(&mut self, rt: &R) -> Option<Parcel>
        ensures is_true { IfSome result (IsTrueParcel C.catalog) }
        ensures taken { IfSome result (λ parcel. view self.new.pass.seat
            ≡ moves (view self.old.pass.seat).puts ((view self.old.pass.seat).takes ++ parcel ∷ [])) }
        ensures nothing { IfNone result (view self.new.pass.seat ≡ view self.old.pass.seat) }
        ensures post { self.new.post.now ≡ self.old.post.now }
    {
        self.post.take(rt, &mut self.pass)
    }
}
