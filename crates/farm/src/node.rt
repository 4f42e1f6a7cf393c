//! The nodes of a farm before it runs.

ghost use Rattle.crossbeam_queue.specs.Passes.{ruled_capacity, view};
ghost use Rattle.farm.specs.NodeEnds.{AreNewEnds};
ghost use Rattle.posts.specs.Parcels.{moves};
ghost use Rattle.std.specs.Prelude.{◌≡◌, ◌+◌, ◌*◌, [], All, IfOk, OnOk, length, map};

use crate::hand::WorkerReceipts;
use catalog::{Catalog, NamedCatalog};
use farm_setup::FarmSetup;
use live_nodes::{LiveNode, Seat};
use posts::{MailboxPort, Post};
use std::alloc::{AllocError, Global};

/// How many workers a node has.
pub const WORKERS: u8 = 2;

/// A node and its mailbox.
#[derive(Drop)]
pub struct FarmNode<C: NamedCatalog> {
    pub live: LiveNode<C>,
    pub post: Post<C>,
}

impl<C: NamedCatalog> FarmNode<C> {
    // A node, whose workers' seats are added to those of the nodes before it.
    fn open(
        alloc: Global,
        catalog: &Catalog,
        setup: &FarmSetup,
        ends: &mut Vec<WorkerReceipts>,
    ) -> Result<FarmNode<C>, AllocError>
        requires { catalog.now ≡ C.catalog }
        ensures capacity { IfOk result
            (λ node. ruled_capacity node.post.queue ≡ setup.now.capacity) }
        ensures count { OnOk result (length ends.new.items ≡ length ends.old.items + 2) }
        ensures fresh { AreNewEnds ends.old.items → OnOk result (AreNewEnds ends.new.items) }
    {
        let (live, seats) = LiveNode::open(alloc, catalog, usize::from(WORKERS))?;
        let (post, _) = Post::new(alloc, catalog, setup.capacity, 0)?;
        add_seats_as_worker_receipts(alloc, seats, ends)?;
        Ok(FarmNode { live, post })
    }
}

/// All nodes, and the seats of their workers, node after node.
pub fn open_farm_nodes_and_worker_seats<C: NamedCatalog>(
    alloc: Global,
    catalog: &Catalog,
    setup: &FarmSetup,
) -> Result<(Vec<FarmNode<C>>, Vec<WorkerReceipts>), AllocError>
    requires { catalog.now ≡ C.catalog }
    ensures nodes { IfOk result (λ opened. length opened.0.items ≡ setup.now.nodes) }
    ensures capacity { IfOk result (λ opened. All
        (λ node. ruled_capacity node.post.queue ≡ setup.now.capacity) opened.0.items) }
    ensures count { IfOk result (λ opened. length opened.1.items ≡ 2 * setup.now.nodes) }
    ensures fresh { IfOk result (λ opened. AreNewEnds opened.1.items) }
{
    let mut nodes: Vec<FarmNode<C>> = Vec::new(alloc);
    let mut ends: Vec<WorkerReceipts> = Vec::new(alloc);
    for _ in 0..setup.nodes {
        let node = FarmNode::open(alloc, catalog, setup, &mut ends)?;
        nodes.reserve(1)?;
        nodes.push_reserved(node);
    }
    Ok((nodes, ends))
}

// Adds seats by which nothing was recorded.
fn add_seats_as_worker_receipts(
    alloc: Global,
    seats: Vec<Seat>,
    ends: &mut Vec<WorkerReceipts>,
) -> Result<(), AllocError>
    requires { All (λ seat. seat ≡ 0) seats.items }
    ensures count { OnOk result
        (length ends.new.items ≡ length ends.old.items + length seats.items) }
    ensures fresh { AreNewEnds ends.old.items → OnOk result (AreNewEnds ends.new.items) }
{
    for seat in seats {
        ends.reserve(1)?;
        ends.push_reserved(WorkerReceipts::new(alloc, seat));
    }
    Ok(())
}

/// A port to each node's mailbox, through which nothing has gone.
pub fn open_ports_to_farm_node_mailboxes<'a, C: NamedCatalog>(
    alloc: Global,
    nodes: &'a [FarmNode<C>],
) -> Result<Vec<MailboxPort<'a, C>>, AllocError>
    ensures posts { IfOk result (λ ports.
        map (λ port. port.post.now) ports.items ≡ map (λ node. node.post) nodes.now) }
    ensures fresh { IfOk result
        (λ ports. All (λ port. view port.pass.seat ≡ moves [] []) ports.items) }
{
    let mut ports: Vec<MailboxPort<'a, C>> = Vec::new(alloc);
    for node in nodes {
        ports.reserve(1)?;
        ports.push_reserved(MailboxPort::new(&node.post));
    }
    Ok(ports)
}
