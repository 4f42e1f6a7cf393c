//! A worker and its turns.

ghost use Rattle.std.specs.Prelude.{◌≡◌};

use crate::counts::TurnCounts;
use crate::period::ParcelPeriodCounter;
use crate::place::WorkerPlace;
use crate::rules::TurnRules;
use crate::standing::KeyReadiness;
use farm_setup::Faults;
use identity::Key;
use std::alloc::AllocError;
use tile_fact::{Fact, Update};

/// For how many turns a worker leases a key.
const LEASE_TURNS: u64 = 16;

/// In turns that are multiples of it, a worker has its node keep what it holds.
const KEEP_PERIOD: u32 = 4;

/// A worker at its place.
#[derive(Drop)]
pub struct WorkerShift<'a, P: WorkerPlace> {
    pub rules: TurnRules<'a>,
    pub place: P,
    pub counts: TurnCounts,
    ghost lose: { counts.lost.period ≡ rules.setup.faults.lose },
    ghost repeat: { counts.repeated.period ≡ rules.setup.faults.repeat },
}

impl<'a, P: WorkerPlace> WorkerShift<'a, P> {
    ghost use Rattle.farm_turns.specs.Calls.{Call, Released};
    ghost use Rattle.farm_turns.specs.Shifts.{HasRun, HasTurned, IsAt};
    ghost use Rattle.farm_turns.specs.Turns.{WorkOutcome, Progress, IsWorkOutcome, MakeOutcome, PassReason, with_call, passed_key, after_giving, after_keeping, before_looking, after_making, open_keys, after_picking, after_parcels, after_restarting, after_sending_below, after_sending_to, after_passing_all, after_passing, after_working};
    ghost use Rattle.identity.specs.declared.key.Key.{Key as KeyOf};
    ghost use Rattle.std.specs.Prelude.{◌+◌, ◌++◌, ◌^◌, ◌≤◌, ◌<◌, ◌∷◌, false, IfNone, IfOk, IfSome, List, OnOk, length, map};
    ghost use Rattle.tile_fact.specs.declared.update.Update.{Update as UpdateOf};

    /// A worker before its first turn, which has counted nothing.
    pub fn new(rules: TurnRules<'a>, place: P) -> WorkerShift<'a, P>
        ensures rules { result.rules ≡ rules.entry }
        ensures at { (log : List Call) → P.has_log place log → IsAt P.has_log result.place result.counts
            (record { log = log; repeated = 0; lost = 0; settled = 0; settling = false }) }
    {
        let Faults { lose, repeat, .. } = rules.setup.faults;
        WorkerShift {
            rules,
            place,
            counts: TurnCounts {
                repeated: ParcelPeriodCounter::new(repeat),
                lost: ParcelPeriodCounter::new(lose),
                settled: 0,
                settling: false,
            },
        }
    }

    /// Goes through all turns.
    ///
    /// # Errors
    ///
    /// Fails only where memory is refused to a call.
    pub fn run(&mut self) -> Result<(), AllocError>
        ensures rules { self.new.rules ≡ self.old.rules }
        ensures all { OnOk result ((g : Progress) → IsAt P.has_log self.old.place self.old.counts g
            → HasRun P.has_log self.new.place self.new.counts self.old.rules self.old.rules.setup.turns g) }
    {
        for before in 0..self.rules.setup.turns {
            self.run_turn(before + 1)?;
        }
        Ok(())
    }

    /// Goes through a turn.
    ///
    /// # Errors
    ///
    /// Fails only where memory is refused to a call.
    pub fn run_turn(&mut self, turn: u32) -> Result<(), AllocError>
        ensures rules { self.new.rules ≡ self.old.rules }
        ensures turned { OnOk result ((g : Progress) → IsAt P.has_log self.old.place self.old.counts g
            → HasTurned P.has_log self.new.place self.new.counts self.old.rules turn g) }
    {
        self.place.announce_turn(self.rules.number, turn);
        self.receive_parcels_into_node()?;
        self.lease_and_make_one_tile(turn)?;
        self.keep_node_state_if_due(turn)?;
        self.restart_node_if_due(turn)
    }

    // Takes parcels from the mailbox of its node, and gives them to the node.
    fn receive_parcels_into_node(&mut self) -> Result<(), AllocError>
        ensures rules { self.new.rules ≡ self.old.rules }
        ensures received { OnOk result ((g : Progress) → IsAt P.has_log self.old.place self.old.counts g
            → (parcels : List (List UpdateOf)) × (length parcels ≤ self.old.rules.setup.capacity)
            × IsAt P.has_log self.new.place self.new.counts (after_parcels self.old.rules g parcels)) }
    {
        for _ in 0..self.rules.setup.capacity {
            let Some(updates) = self.place.receive_parcel_updates(self.rules.home) else {
                return Ok(());
            };
            self.give_updates_to_node_once_or_twice(updates)?;
        }
        Ok(())
    }

    // Gives the updates of a parcel to the node, once or twice.
    fn give_updates_to_node_once_or_twice(&mut self, updates: Vec<Update>) -> Result<(), AllocError>
        requires { P.are_true updates.items }
        ensures rules { self.new.rules ≡ self.old.rules }
        ensures given { OnOk result ((g : Progress) → IsAt P.has_log self.old.place self.old.counts g
            → IsAt P.has_log self.new.place self.new.counts (after_giving self.old.rules g updates.items)) }
    {
        if self.counts.repeated.count_parcel_and_check_period_end() {
            self.place.add_update_copies_to_node(&updates)?;
        }
        self.place.add_updates_to_node(updates)
    }

    // Makes the tile of the first key that can be made and is leased to the worker, and gives the lease back.
    fn lease_and_make_one_tile(&mut self, turn: u32) -> Result<(), AllocError>
        ensures rules { self.new.rules ≡ self.old.rules }
        ensures worked { OnOk result ((g : Progress) → IsAt P.has_log self.old.place self.old.counts g
            → (finding : WorkOutcome) × IsWorkOutcome self.old.rules g finding
            × IsAt P.has_log self.new.place self.new.counts (after_working self.old.rules turn g finding)) }
    {
        if let Some((key, plan)) = self.lease_first_open_work_key(turn)? {
            let done = self.make_and_share_tile(turn, &key, &plan);
            self.release_work_key(turn, &key);
            done?;
        }
        Ok(())
    }

    // Gives the lease of a key back.
    fn release_work_key(&mut self, turn: u32, key: &Key)
        ensures rules { self.new.rules ≡ self.old.rules }
        ensures released { (g : Progress) → IsAt P.has_log self.old.place self.old.counts g
            → IsAt P.has_log self.new.place self.new.counts (with_call g (Released turn self.old.rules.number key.now)) }
    {
        self.place
            .release_key(u64::from(turn), self.rules.number, key);
    }

    // The first key that can be made and is leased to the worker. No call is made where all keys are settled.
    fn lease_first_open_work_key(&mut self, turn: u32) -> Result<Option<(Key, P::Plan)>, AllocError>
        ensures rules { self.new.rules ≡ self.old.rules }
        ensures none { IfOk result (λ found. IfNone found
            ((g : Progress) → IsAt P.has_log self.old.place self.old.counts g
            → (finding : WorkOutcome) × IsWorkOutcome self.old.rules g finding
            × IsAt P.has_log self.new.place self.new.counts (after_working self.old.rules turn g finding))) }
        ensures some { IfOk result (λ found. IfSome found (λ pick.
            (g : Progress) → IsAt P.has_log self.old.place self.old.counts g
            → (passed : List (KeyOf × PassReason)) × (rest : List KeyOf)
            × (open_keys self.old.rules g ≡ map passed_key passed ++ pick.0 ∷ rest)
            × IsAt P.has_log self.new.place self.new.counts
            (after_picking self.old.rules turn (after_passing_all self.old.rules turn g passed) pick.0 (P.needs_of pick.1)))) }
    {
        let keys = self.rules.keys;
        let start = self.counts.settled;
        if start >= keys.len() {
            return Ok(None);
        }
        self.begin_to_look();
        for key in &keys[start..] {
            if let Some(plan) = self.plan_and_lease_work_key_if_open(turn, key)? {
                return Ok(Some((*key, plan)));
            }
        }
        Ok(None)
    }

    // From here on keys are settled, unless nodes restart.
    fn begin_to_look(&mut self)
        ensures rules { self.new.rules ≡ self.old.rules }
        ensures settled { self.new.counts.settled ≡ self.old.counts.settled }
        ensures looking { (g : Progress) → IsAt P.has_log self.old.place self.old.counts g
            → IsAt P.has_log self.new.place self.new.counts (before_looking self.old.rules g) }
    {
        self.counts.settling = self.rules.setup.faults.restart == 0;
    }

    // How the tile of a key is made, if it can be made and is leased to the worker.
    fn plan_and_lease_work_key_if_open(
        &mut self,
        turn: u32,
        key: &Key,
    ) -> Result<Option<P::Plan>, AllocError>
        requires { self.old.counts.settled + 1 < 2 ^ 64 }
        ensures rules { self.new.rules ≡ self.old.rules }
        ensures settled { self.new.counts.settled ≤ self.old.counts.settled + 1 }
        ensures none { IfOk result (λ found. IfNone found
            ((g : Progress) → IsAt P.has_log self.old.place self.old.counts g
            → (why : PassReason) × IsAt P.has_log self.new.place self.new.counts (after_passing self.old.rules turn g key.now why))) }
        ensures some { IfOk result (λ found. IfSome found (λ plan.
            (g : Progress) → IsAt P.has_log self.old.place self.old.counts g
            → IsAt P.has_log self.new.place self.new.counts
            (after_picking self.old.rules turn g key.now (P.needs_of plan)))) }
    {
        let standing = self.place.find_readiness_of_work_key(key)?;
        if let KeyReadiness::Known = standing {
            if self.counts.settling {
                self.counts.settled += 1;
            }
            return Ok(None);
        }
        self.counts.settling = false;
        let KeyReadiness::Open(plan) = standing else {
            return Ok(None);
        };
        let leased = self
            .place
            .claim_key(u64::from(turn), self.rules.number, key, LEASE_TURNS)?;
        if !leased {
            return Ok(None);
        }
        Ok(Some(plan))
    }

    // Makes the tile of a key from what its node lends, and gives its fact to the node and to all others. Nothing is made if the
    // other worker has restarted the node, so that it no longer holds the needs.
    fn make_and_share_tile(
        &mut self,
        turn: u32,
        key: &Key,
        plan: &P::Plan,
    ) -> Result<(), AllocError>
        ensures rules { self.new.rules ≡ self.old.rules }
        ensures made { OnOk result ((g : Progress) → IsAt P.has_log self.old.place self.old.counts g
            → (making : MakeOutcome) × IsAt P.has_log self.new.place self.new.counts
            (after_making self.old.rules turn key.now (P.needs_of plan.now) g making)) }
    {
        let Some(facts) = self.place.lend_needed_facts(plan)? else {
            return Ok(());
        };
        let Some(fact) = self.place.compute_fact(&facts, key)? else {
            return Ok(());
        };
        self.place.report_fact(self.rules.number, turn, &fact);
        self.place.add_fact_to_node(&fact)?;
        self.send_fact_to_other_nodes(&fact)
    }

    // Puts a parcel with the fact into each other node's mailbox, but for those that are to be lost.
    fn send_fact_to_other_nodes(&mut self, fact: &Fact) -> Result<(), AllocError>
        requires { P.is_true fact.now }
        ensures rules { self.new.rules ≡ self.old.rules }
        ensures sent { OnOk result ((g : Progress) → IsAt P.has_log self.old.place self.old.counts g
            → IsAt P.has_log self.new.place self.new.counts
            (after_sending_below self.old.rules fact.now g self.old.rules.setup.nodes)) }
    {
        for node in 0..self.rules.setup.nodes {
            self.send_fact_to_node_unless_own_or_lost(node, fact)?;
        }
        Ok(())
    }

    // Puts a parcel with the fact into a node's mailbox, if it is another node, and the parcel is not lost.
    fn send_fact_to_node_unless_own_or_lost(
        &mut self,
        node: u8,
        fact: &Fact,
    ) -> Result<(), AllocError>
        requires { P.is_true fact.now }
        ensures rules { self.new.rules ≡ self.old.rules }
        ensures sent { OnOk result ((g : Progress) → IsAt P.has_log self.old.place self.old.counts g
            → IsAt P.has_log self.new.place self.new.counts
            (after_sending_to self.old.rules fact.now g node)) }
    {
        if node != self.rules.home && !self.counts.lost.count_parcel_and_check_period_end() {
            self.place.post_fact(node, self.rules.home, fact)?;
        }
        Ok(())
    }

    // Has the node keep what it holds, in some turns.
    fn keep_node_state_if_due(&mut self, turn: u32) -> Result<(), AllocError>
        ensures rules { self.new.rules ≡ self.old.rules }
        ensures kept { OnOk result ((g : Progress) → IsAt P.has_log self.old.place self.old.counts g
            → IsAt P.has_log self.new.place self.new.counts (after_keeping turn g)) }
    {
        if turn % KEEP_PERIOD == 0 {
            self.place.keep_node_state()?;
        }
        Ok(())
    }

    // Restarts the node, in some turns.
    fn restart_node_if_due(&mut self, turn: u32) -> Result<(), AllocError>
        ensures rules { self.new.rules ≡ self.old.rules }
        ensures restarted { OnOk result ((g : Progress) → IsAt P.has_log self.old.place self.old.counts g
            → IsAt P.has_log self.new.place self.new.counts (after_restarting self.old.rules turn g)) }
    {
        let restart = self.rules.setup.faults.restart;
        if restart > 0 && turn % restart == 0 {
            self.place.restart_node()?;
        }
        Ok(())
    }
}
